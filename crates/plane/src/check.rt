// How raw pairs become a checked outline.
ghost use Rattle.std.specs.Prelude.{◌≡◌, ◌≤◌, true, length, drop, is_ok, None, IfOk, OnErr};
ghost use Rattle.std.specs.List.{AllByRecursion};
ghost use Rattle.plane.specs.Meaning.{Admitted};
ghost use Rattle.plane.specs.Outlines.{Corners, first_wild, checked, most_corners};
ghost use Rattle.plane.specs.Refusals.{refused};

use crate::arithmetic::Arithmetic;
use crate::outline::{MOST_CORNERS, Outline};
use crate::refusal::Refusal;

// The index of the first pair that is not admitted.
fn first_wild<K: Arithmetic>(raw: &[K::Raw]) -> Option<usize>
    ensures { result ≡ first_wild K.Arithmetic.meaning raw.now }
{
    raw.iter().position(|pair| K::admitted(*pair).is_none())
}

// Refuses what so many places do not take.
fn refuse<K: Arithmetic>(raw: &[K::Raw], places: usize) -> Result<(), Refusal>
    ensures { refused result ≡ checked K.Arithmetic.meaning raw.now places }
{
    if raw.len() > MOST_CORNERS {
        return Err(Refusal::TooManyCorners(MOST_CORNERS));
    }
    if let Some(i) = first_wild::<K>(raw) {
        return Err(Refusal::NotAdmitted(i));
    }
    if places < raw.len() {
        return Err(Refusal::NoPlace);
    }
    Ok(())
}

// Writes the corner of each pair into the place of its index. By index, since nothing is known of places after an iterator has lent them.
fn fill<K: Arithmetic>(raw: &[K::Raw], places: &mut [K::Corner])
    requires same { length places.old ≡ length raw.now }
    requires fine { first_wild K.Arithmetic.meaning raw.now ≡ None }
    ensures { Corners K.Arithmetic.meaning raw.now places.new }
{
    for (i, pair) in raw.iter().enumerate() {
        if let Some(corner) = K::admitted(*pair) {
            places[i] = corner;
        }
    }
}

// Takes places for the corners off the front of a store.
fn lay<'a, K: Arithmetic>(raw: &[K::Raw], store: &mut &'a mut [K::Corner]) -> &'a [K::Corner]
    requires room { length raw.now ≤ length store.old.now }
    requires fine { first_wild K.Arithmetic.meaning raw.now ≡ None }
    ensures laid { Corners K.Arithmetic.meaning raw.now result.now }
    ensures rest { store.new.now ≡ drop (length raw.now) store.old.now }
{
    let places = std::mem::take(store);
    let (front, rest) = places.split_at_mut(raw.len());
    fill::<K>(raw, front);
    *store = rest;
    front
}

/// Checks raw pairs, and makes an outline of their corners, in places off the front of the store.
/// A refusal leaves the store as it was.
pub fn check<'a, K: Arithmetic>(
    raw: &[K::Raw],
    store: &mut &'a mut [K::Corner],
) -> Result<Outline<'a, K>, Refusal>
    ensures answer { refused result ≡ checked K.Arithmetic.meaning raw.now (length store.old.now) }
    ensures kept { OnErr result (store.new ≡ store.old) }
    ensures held { IfOk result (λ outline. Corners K.Arithmetic.meaning raw.now outline) }
    ensures few { IfOk result (λ outline. length outline ≤ most_corners) }
    ensures fine { IfOk result (λ outline. AllByRecursion (Admitted K.Arithmetic.meaning) outline) }
    ensures rest { is_ok result ≡ true → store.new.now ≡ drop (length raw.now) store.old.now }
{
    refuse::<K>(raw, store.len())?;
    let corners = lay::<K>(raw, store);
    Ok(Outline::over(corners))
}
