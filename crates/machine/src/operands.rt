// The names of the built-ins, and what some come to on their arguments.
ghost use Rattle.std.specs.Prelude.{◌≡◌, ◌≤◌, [], ◌∷◌, length};
ghost use Rattle.language.specs.Signs.{cells_limit};
ghost use Rattle.language.specs.Groups.{of_group};
ghost use Rattle.language.specs.BuiltIns.{named, built_ins};
ghost use Rattle.machine.specs.Walks.{built_in_named, named_among, compare, operand_at, calculate};

use crate::{index, lookup};
use decimal::operations::{Operation, Refusal};
use decimal::reader::Reader;
use decimal::shortest::Decimal;
use language::built_ins::BuiltIn;

// Which built-in has the name at a length cell: those of its group are looked at, and no others.
#[tactic(auto, unfolding(crate::specs::Walks::named_among, language::specs::Groups::of_group, language::specs::Groups::sum))]
pub(crate) fn built_in(cells: &[u32], name: usize) -> Option<BuiltIn>
    requires { (length cells.now ≤ cells_limit) × (name ≤ 8589934592) }
    ensures { result ≡ built_in_named cells.now name }
{
    let count = memory::read(cells, name) as usize;
    let group = index::group(cells, name + 1, count);
    match group {
        3 => known(cells, name, b"UPDATE", BuiltIn::Update),
        15 => of_group_15(cells, name),
        35 => known(cells, name, b"VAL", BuiltIn::Val),
        36 => known(
            cells,
            name,
            b"Rem",
            BuiltIn::Arithmetic(Operation::Remainder),
        ),
        41 => of_group_41(cells, name),
        42 => known(cells, name, b"*", BuiltIn::Arithmetic(Operation::Product)),
        43 => known(cells, name, b"+", BuiltIn::Arithmetic(Operation::Sum)),
        45 => known(
            cells,
            name,
            b"-",
            BuiltIn::Arithmetic(Operation::Difference),
        ),
        59 => known(cells, name, b"SIZE", BuiltIn::Size),
        _ => None,
    }
}

// The built-in, where the name at a length cell is its own.
#[tactic(auto, unfolding(crate::specs::Walks::named_among))]
fn known(cells: &[u32], name: usize, own: &[u8], built_in: BuiltIn) -> Option<BuiltIn>
    requires { name ≤ 8589934592 }
    ensures { result ≡ named_among cells.now name (named own.now built_in ∷ []) }
{
    lookup::is_text(cells, name, own).then_some(built_in)
}

#[tactic(auto, unfolding(crate::specs::Walks::named_among, language::specs::Groups::of_group, language::specs::Groups::sum))]
fn of_group_15(cells: &[u32], name: usize) -> Option<BuiltIn>
    requires { name ≤ 8589934592 }
    ensures { result ≡ named_among cells.now name (of_group 15 built_ins) }
{
    if lookup::is_text(cells, name, b"DEF") {
        return Some(BuiltIn::Def);
    }
    known(cells, name, b"IF", BuiltIn::If)
}

#[tactic(auto, unfolding(crate::specs::Walks::named_among, language::specs::Groups::of_group, language::specs::Groups::sum))]
fn of_group_41(cells: &[u32], name: usize) -> Option<BuiltIn>
    requires { name ≤ 8589934592 }
    ensures { result ≡ named_among cells.now name (of_group 41 built_ins) }
{
    if lookup::is_text(cells, name, b"Quot") {
        return Some(BuiltIn::Arithmetic(Operation::Quotient));
    }
    if lookup::is_text(cells, name, b"SEQ") {
        return Some(BuiltIn::Seq);
    }
    known(cells, name, b"LOCK", BuiltIn::Lock)
}

// SEQ: 1 where two arguments are the same, their lengths and their bytes, else 0.
pub(crate) fn compare(cells: &[u32], first: usize, second: usize) -> u32
    requires { (first ≤ 8589934592) × (second ≤ 8589934592) }
    ensures { result ≡ compare cells.now first second }
{
    let count = memory::read(cells, first) as usize;
    u32::from(memory::same_blocks(cells, first, second, count + 1))
}

// The operation of a built-in on two arguments.
pub(crate) fn calculate(
    operation: Operation,
    cells: &[u32],
    first: usize,
    second: usize,
) -> Result<Decimal, Refusal>
    requires { (first ≤ 8589934592) × (second ≤ 8589934592) }
    ensures { result ≡ calculate operation cells.now first second }
{
    operation.of(operand(cells, first), operand(cells, second))
}

// The operand in the argument at a length cell. An argument that does not lie within the cells is no number.
fn operand(cells: &[u32], argument: usize) -> Option<i32>
    requires { argument ≤ 8589934592 }
    ensures { result ≡ operand_at cells.now argument }
{
    let from = argument + 1;
    let end = from + memory::read(cells, argument) as usize;
    if cells.len() < end {
        return None;
    }
    let mut reader = Reader::new();
    for cell in &cells[from..end] {
        reader = reader.take((cell % 256) as u8);
    }
    reader.finish()
}
