// The built-ins.
ghost use Rattle.std.specs.Prelude.{◌≡◌};
ghost use Rattle.language.specs.BuiltIns.{needs};

use decimal::operations::Operation;

#[derive(Clone, Copy)]
pub enum BuiltIn {
    Def,
    Val,
    Update,
    Arithmetic(Operation),
    Seq,
    Size,
    If,
    Lock,
}

impl BuiltIn {
    // How many parameters it needs.
    pub fn needs(self) -> usize
        ensures { result ≡ needs self }
    {
        match self {
            BuiltIn::Def => 2,
            BuiltIn::Val => 1,
            BuiltIn::Update => 2,
            BuiltIn::Arithmetic(_) => 2,
            BuiltIn::Seq => 2,
            BuiltIn::Size => 1,
            BuiltIn::If => 2,
            BuiltIn::Lock => 1,
        }
    }
}
