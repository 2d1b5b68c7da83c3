// The chart of two outlines, written into the caller's tables.
ghost use Rattle.std.specs.Prelude.{◌≡◌, ◌+◌, ◌*◌, ◌<◌, ◌≤◌, true, List, ◌++◌, length, drop, is_ok, Ok, OnErr};
ghost use Rattle.plane.specs.Outlines.{most_corners};
ghost use Rattle.plane.specs.Refusals.{refused};
ghost use Rattle.rules.specs.Chart.{Sound};
ghost use Rattle.chart.specs.Charts.{InOrder, chart_of, refused_for};
ghost use Rattle.chart.specs.Crossings.{crossings};
ghost use Rattle.chart.specs.Records.{records_of};
ghost use Rattle.chart.specs.Words.{ToldBy};

use crate::chain::{Chains, Crossings};
use crate::count::count;
use crate::fill::fill;
use crate::layout::{Corners, WORDS_PER_CROSSING};
use crate::record::Record;
use plane::arithmetic::Arithmetic;
use plane::outline::Outline;
use plane::refusal::Refusal;

// How many words are asked for beyond those that tell the chart, and not used.
const MORE_WORDS: usize = 8;

// Refuses tables of these lengths that do not take so many crossings.
fn refuse(corners: Corners, found: usize, records: usize, words: usize) -> Result<(), Refusal>
    requires { found ≤ most_corners * most_corners }
    ensures answer { refused result ≡ refused_for corners.one corners.two found records words }
    ensures fits { is_ok result ≡ true → (0 < corners.one) × (0 < corners.two) × (found ≤ records) × (6 * found + corners.one + corners.two + 8 ≤ words) }
{
    if corners.one == 0 || corners.two == 0 {
        return Err(Refusal::NoCorners);
    }
    if records < found || words < WORDS_PER_CROSSING * found + corners.slots() + MORE_WORDS {
        return Err(Refusal::TablesTooSmall);
    }
    Ok(())
}

/// Writes down the crossings of two outlines, and tells in words how they stand along the edges of either. Answers how many there are.
/// A refusal leaves the records and the words as they were.
pub fn compute_sorted_edge_intersections<K: Arithmetic>(
    arith: &K,
    one: &Outline<K>,
    two: &Outline<K>,
    records: &mut [Record<K::Mark>],
    words: &mut [u32],
) -> Result<usize, Refusal>
    ensures answer { refused result ≡ refused_for (length one.now) (length two.now) (crossings K.Arithmetic.meaning arith.now one.now two.now) (length records.old) (length words.old) }
    ensures kept { OnErr result ((records.new ≡ records.old) × (words.new ≡ words.old)) }
    ensures found { is_ok result ≡ true → result ≡ Ok (crossings K.Arithmetic.meaning arith.now one.now two.now) }
    ensures written { is_ok result ≡ true → records.new ≡ records_of K.Arithmetic.meaning arith.now one.now two.now ++ drop (crossings K.Arithmetic.meaning arith.now one.now two.now) records.old }
    ensures told { is_ok result ≡ true → ToldBy words.new (chart_of K.Arithmetic.meaning arith.now one.now two.now) }
    ensures rest { is_ok result ≡ true → drop (6 * crossings K.Arithmetic.meaning arith.now one.now two.now + length one.now + length two.now) words.new ≡ drop (6 * crossings K.Arithmetic.meaning arith.now one.now two.now + length one.now + length two.now) words.old }
{
    let corners = Corners::of(one, two);
    let found = count(arith, one, two);
    refuse(corners, found, records.len(), words.len())?;
    fill(arith, one, two, records);
    let records = &records[..found];
    let crossings = Crossings {
        arith,
        records,
        corners,
    };
    let mut chains = Chains { crossings, words };
    chains.chain_all();
    Ok(found)
}

/// The chart of two rings has as many crossings as are counted; where both rings have corners it is sound, and along each edge its crossings are in order.
pub fn chart_stands<K: Arithmetic>()
    ensures counted { (a : K) (one two : List K.Corner) → (chart_of K.Arithmetic.meaning a one two).count ≡ crossings K.Arithmetic.meaning a one two }
    ensures sound { (a : K) (one two : List K.Corner) → 0 < length one → 0 < length two → Sound (chart_of K.Arithmetic.meaning a one two) }
    ensures ordered { (a : K) (one two : List K.Corner) → InOrder K.Arithmetic.meaning a one two }
{}
