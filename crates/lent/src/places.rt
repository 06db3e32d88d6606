// The lowest place where something is amiss; and limits 59 and 60, once the first records are known, which ask what is known of one fact and how many
// records there are: a survey and a comparison hand in the same two, each from fields of its own.
ghost use Rattle.std.specs.Prelude.{◌≡◌, [], ◌+◌, drop};
ghost use Rattle.constraint.specs.Lists.{first_out};
ghost use Rattle.lent.specs.Places as p;

use constraint::{Clocks, Configuration};
use limit::{Limit, Place, Refusal};

// The lowest place at which a test fails: the one that is known, else this one. Nothing is written where it passes, which is quicker.
#[inline(always)]
pub fn lowest(known: &mut Option<Place>, passes: bool, place: Place)
    ensures { known.new ≡ p.lowest known.old passes place }
{
    if !passes {
        *known = (*known).or(Some(place));
    }
}

// Limit 59: counts of clocks that do not fit, the first record that does not, over 64 records.
pub fn unfit_at(clocks: Clocks, unfit: Option<Place>, count: usize) -> Option<Place>
    ensures { result ≡ p.unfit_at clocks unfit count }
{
    if !clocks.fit() {
        return Some(Place(0));
    }
    if 64 < count {
        return unfit.or(Some(Place(65)));
    }
    unfit
}

// The first word from an index on that is not 0; the words before it were asked with their records, in the walk. Both numbers are asked at once,
// which is quicker.
fn first_beyond(configuration: &Configuration, from: usize) -> Option<Place>
    ensures { result ≡ first_out (from + 1) [] (drop from configuration.now.words) }
{
    for (i, word) in configuration.words.iter().enumerate().skip(from) {
        if (word.first != 0) | (word.second != 0) {
            return Some(Place(i + 1));
        }
    }
    None
}

// Limit 60: the first word out of range, those beyond the records among them.
pub fn out_at(out: Option<Place>, count: usize, configuration: &Configuration) -> Option<Place>
    ensures { result ≡ p.out_at out count configuration.now.words }
{
    if out.is_some() {
        return out;
    }
    first_beyond(configuration, count)
}

// Refuses where a limit is broken.
pub fn refuse_at(limit: Limit, broken: Option<Place>) -> Result<(), Refusal>
    ensures { result ≡ p.refused_at limit broken }
{
    match broken {
        Some(place) => Err(limit.at(place)),
        None => Ok(()),
    }
}
