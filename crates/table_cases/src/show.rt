// The lines of a table that was read: its numbers, the names of its clocks, and its constraints.
ghost use Rattle.std.specs.Prelude.{◌≤◌};
ghost use Rattle.grammar.specs.Building.{clocks_in};

use console::Part;
use constraint::{Constraint, Definition, Kind, Relation};
use grammar::Table;
use std::{fmt, io};
use text::Span;

// The words of a form, or `empty`.
fn words(kind: &Kind) -> &'static str {
    match kind {
        Kind::Empty => "empty",
        Kind::Relates(Relation::Coincides) => "=",
        Kind::Relates(Relation::Excludes) => "#",
        Kind::Relates(Relation::SubClock) => "isSubClockOf",
        Kind::Relates(Relation::StrictlyPrecedes) => "strictly precedes",
        Kind::Relates(Relation::Precedes) => "precedes",
        Kind::Defines(Definition::Union) => "clockUnion",
        Kind::Defines(Definition::Inter) => "clockInter",
        Kind::Defines(Definition::Lub) => "lub",
        Kind::Defines(Definition::Glb) => "glb",
        Kind::Defines(Definition::Await(_)) => "await",
        Kind::Defines(Definition::StrictlySampled) => "strictly sampled",
        Kind::Defines(Definition::Sampled) => "sampled",
        Kind::Defines(Definition::Upto) => "upto",
        Kind::Defines(Definition::Deferred(_)) => "deferred",
    }
}

// The number of an await, 0 for any other form, and behind that the list of a delay.
#[derive(Clone, Copy, Debug)]
struct Numbers<'a>(&'a Kind);

impl<'a> fmt::Display for Numbers<'a> {
    fn fmt<W: fmt::Write>(&self, f: &mut fmt::Formatter<W>) -> fmt::Result {
        match self.0 {
            Kind::Defines(Definition::Await(n)) => write!(f, "{n}"),
            Kind::Defines(Definition::Deferred(list)) => {
                write!(f, "0 for")?;
                for n in list.as_slice() {
                    write!(f, " {n}")?;
                }
                Ok(())
            }
            _ => write!(f, "0"),
        }
    }
}

// The line of a constraint: its table line, its form, its clocks, its number or list, and its start word.
#[derive(Clone, Copy, Debug)]
struct Line<'a>(&'a Constraint);

impl<'a> fmt::Display for Line<'a> {
    fn fmt<W: fmt::Write>(&self, f: &mut fmt::Formatter<W>) -> fmt::Result {
        let one = self.0;
        write!(f, "  {} {}", one.line, words(&one.kind))?;
        write!(f, " c {} a {} b {}", one.defined, one.first, one.second)?;
        write!(f, " n {} w {}", Numbers(&one.kind), Part(one.start()))
    }
}

// The line of the clocks' names, where there is a clock.
fn clocks(rt: &impl Print, text: &[u8], names: &[Span]) -> io::Result<()> {
    if names.is_empty() {
        return Ok(());
    }
    print!(rt; "  clocks")?;
    for name in names {
        print!(rt; " ")?;
        rt.write_all(name.of(text))?;
    }
    println!(rt)
}

// The line of a table's numbers: of clocks, of those that are named where some are not, and of constraints; its clocks, and its constraints.
pub fn table(rt: &impl Print, text: &[u8], table: &Table) -> io::Result<()>
    requires { (clocks_in table.now).count ≤ 32 }
{
    let named = table.names.len();
    let constraints = table.constraints();
    print!(rt; "read, {} clocks", named + table.implicit)?;
    if 0 < table.implicit {
        print!(rt; ", {named} named")?;
    }
    println!(rt; ", {} constraints", constraints.len())?;
    clocks(rt, text, table.names.as_slice())?;
    for constraint in constraints {
        rt.println(Line(constraint))?;
    }
    Ok(())
}
