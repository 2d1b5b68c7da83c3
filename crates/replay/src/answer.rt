// From a question to its answer.
use crate::failure::Failure;
use crate::question::{Call, Precision, Question};
use crate::written::{Told, Written, ring};
use decimetre::corner::Decimetre;
use plane::answer::{Meet, Side};
use plane::check::check;
use plane::outline::MOST_CORNERS;
use plane::point_in_poly2d::point_in_poly2d;
use single::tolerance::Single;
use std::alloc::Global;
use std::fmt;
use std::str::FromStr;

/// The answer to a call.
#[derive(Clone, Copy)]
enum Answer<M> {
    Meet(Meet<M>),
    Side(Side),
    Inside(bool),
}

impl<M: Copy> fmt::Display for Answer<M>
where
    Told<M>: fmt::Display,
{
    fn fmt<W: fmt::Write>(&self, f: &mut fmt::Formatter<W>) -> fmt::Result {
        match *self {
            Answer::Meet(Meet::Apart) => f.write_str("apart"),
            Answer::Meet(Meet::Crossing(m, n)) => write!(f, "cross {} {}", Told(m), Told(n)),
            Answer::Meet(Meet::Overlap(m, n, o, p)) => {
                write!(f, "overlap {} {} {} {}", Told(m), Told(o), Told(n), Told(p))
            }
            Answer::Side(Side::Left) => f.write_str("left"),
            Answer::Side(Side::Right) => f.write_str("right"),
            Answer::Side(Side::Level) => f.write_str("level"),
            Answer::Inside(true) => f.write_str("yes"),
            Answer::Inside(false) => f.write_str("no"),
        }
    }
}

// What an arithmetic answers to a call on the pairs of two rings.
fn answer_of<K: Written>(
    heap: Global,
    arith: &K,
    call: Call,
    one: &[K::Raw],
    two: &[K::Raw],
) -> Result<Answer<K::Mark>, Failure> {
    let corner = |pair: &K::Raw| K::admitted(*pair).ok_or(Failure::Unreadable);
    Ok(match (call, one, two) {
        (Call::Seg, [a, b], [c, d]) => {
            Answer::Meet(arith.meet(corner(a)?, corner(b)?, corner(c)?, corner(d)?))
        }
        (Call::Side, [a, b], [c]) => Answer::Side(arith.side(corner(a)?, corner(b)?, corner(c)?)),
        (Call::Inside, [p], ring) => {
            let p = corner(p)?;
            // No more places than an outline holds: a longer ring is refused.
            let mut places = vec![in heap; p; ring.len().min(MOST_CORNERS)]?;
            let ring = check::<K>(ring, &mut places.as_mut_slice())?;
            Answer::Inside(point_in_poly2d(arith, p, &ring))
        }
        _ => return Err(Failure::Unreadable),
    })
}

// Prints a question with its answer.
fn reply_in<K: Written>(
    rt: &(impl Alloc<A = Global> + Print),
    text: &str,
    question: Question,
) -> Result<(), Failure>
where
    Told<K::Raw>: FromStr<Err = Failure>,
    Told<K::Mark>: fmt::Display,
{
    let heap = rt.alloc();
    let arith = K::with(question.tolerance)?;
    let one = ring(heap, question.one)?;
    let two = ring(heap, question.two)?;
    let answer = answer_of(heap, &arith, question.call, one.as_slice(), two.as_slice())?;
    println!(rt; "{text} => {answer}")?;
    Ok(())
}

/// Prints a question with its answer, if the question can be read.
pub(crate) fn reply(rt: &(impl Alloc<A = Global> + Print), text: &str) -> Result<(), Failure> {
    let question = Question::try_from(text)?;
    match question.precision {
        Precision::Decimetre => reply_in::<Decimetre>(rt, text, question),
        Precision::Single => reply_in::<Single>(rt, text, question),
    }
}
