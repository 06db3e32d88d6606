// Kinds as numbers, as C has them. Functions, since `From` between types of other crates is not allowed.
ghost use Rattle.std.specs.Prelude.{◌≡◌, length};
ghost use Rattle.constraint.specs.declared.Kind.TheVariants as kinds;
ghost use Rattle.monitor_c.specs.Numbers.{at_most, clock_of, kind_number, kind_of, list_of, packed, await_number, delay_list};

use constraint::{Definition, Delays, Kind, Relation};

// n, or the most that is let pass.
#[inline(always)]
pub fn clock_of(n: u64) -> u8
    ensures { result ≡ clock_of n }
{
    n.min(255) as u8
}

// The first numbers of a list that has a number a byte, this many; none where it has fewer.
#[inline(always)]
fn list_of(numbers: u64, count: u64) -> Delays
    ensures { result ≡ list_of numbers count }
{
    let mut list = Delays::new();
    if 8 < count {
        return list;
    }
    let bytes = numbers.to_le_bytes();
    let given = &bytes[..count as usize];
    if given.contains(&0) {
        return list;
    }
    for number in given {
        list.push(*number);
    }
    list
}

// The kind with a number, empty where no kind has it; an await with its number, and a delay with its list.
#[inline(always)]
pub fn kind_of(kind: u64, n: u64, numbers: u64, count: u64) -> Kind
    ensures { result ≡ kind_of kind n numbers count }
{
    match kind {
        1 => Kind::Relates(Relation::Coincides),
        2 => Kind::Relates(Relation::Excludes),
        3 => Kind::Relates(Relation::SubClock),
        4 => Kind::Relates(Relation::StrictlyPrecedes),
        5 => Kind::Relates(Relation::Precedes),
        6 => Kind::Defines(Definition::Union),
        7 => Kind::Defines(Definition::Inter),
        8 => Kind::Defines(Definition::Lub),
        9 => Kind::Defines(Definition::Glb),
        10 => Kind::Defines(Definition::Await(n.min(4_294_967_295))),
        11 => Kind::Defines(Definition::StrictlySampled),
        12 => Kind::Defines(Definition::Sampled),
        13 => Kind::Defines(Definition::Upto),
        14 => Kind::Defines(Definition::Deferred(list_of(numbers, count))),
        _ => Kind::Empty,
    }
}

fn relation_number(relation: Relation) -> u64
    ensures { result ≡ kind_number (kinds.Relates relation) }
{
    match relation {
        Relation::Coincides => 1,
        Relation::Excludes => 2,
        Relation::SubClock => 3,
        Relation::StrictlyPrecedes => 4,
        Relation::Precedes => 5,
    }
}

fn definition_number(definition: &Definition) -> u64
    ensures { result ≡ kind_number (kinds.Defines definition.now) }
{
    match definition {
        Definition::Union => 6,
        Definition::Inter => 7,
        Definition::Lub => 8,
        Definition::Glb => 9,
        Definition::Await(_) => 10,
        Definition::StrictlySampled => 11,
        Definition::Sampled => 12,
        Definition::Upto => 13,
        Definition::Deferred(_) => 14,
    }
}

// The number of a kind.
pub fn kind_number(kind: &Kind) -> u64
    ensures { result ≡ kind_number kind.now }
{
    match kind {
        Kind::Empty => 0,
        Kind::Relates(relation) => relation_number(*relation),
        Kind::Defines(definition) => definition_number(definition),
    }
}

// The number of an await, 0 of every other kind.
pub fn await_number(kind: &Kind) -> u64
    ensures { result ≡ await_number kind.now }
{
    match kind {
        Kind::Defines(Definition::Await(n)) => *n,
        _ => 0,
    }
}

// The list of a delay, empty of every other kind.
pub fn delay_list(kind: &Kind) -> Delays
    ensures { result ≡ delay_list kind.now }
{
    match kind {
        Kind::Defines(Definition::Deferred(list)) => *list,
        _ => Delays::new(),
    }
}

// A list as a number that has a number a byte.
pub fn packed(list: &Delays) -> u64
    ensures { result ≡ packed list.now }
{
    let mut bytes = [0; 8];
    let count = list.len();
    bytes[..count].copy_from_slice(list.as_slice());
    u64::from_le_bytes(bytes)
}
