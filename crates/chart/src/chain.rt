// Chains of crossings along the edges, in one slice of words.
ghost use Rattle.std.specs.Prelude.{◌≡◌, ℕ, ◌+◌, ◌*◌, ◌^◌, ◌<◌, ◌≤◌, List, length, drop};
ghost use Rattle.rules.specs.Chart.{other};
ghost use Rattle.chart.specs.Chains.{Below, Links, spot};
ghost use Rattle.chart.specs.Records.{edge_at, not_after_at};
ghost use Rattle.chart.specs.Words.{Chained, Linked, OnEdges, Unlinked, base, described, start};

use crate::layout::Corners;
use crate::record::Record;
use crate::words::{NONE, side_word};
use plane::arithmetic::Arithmetic;
use plane::ring::Ring;

/// The crossings of two rings, each with its record.
#[derive(Drop)]
pub(crate) struct Crossings<'a, K: Arithmetic> {
    pub(crate) arith: &'a K,
    pub(crate) records: &'a [Record<K::Mark>],
    pub(crate) corners: Corners,
    ghost few: { length records.now < 2 ^ 32 },
    ghost on_edges: { OnEdges corners records.now },
}

/// The crossings of two rings, and the words that they are chained in.
#[derive(Drop)]
pub(crate) struct Chains<'a, K: Arithmetic> {
    pub(crate) crossings: Crossings<'a, K>,
    pub(crate) words: &'a mut [u32],
    ghost room: { crossings.corners.one + crossings.corners.two + 6 * length crossings.records.now ≤ length words.now },
}

impl<K: Arithmetic> Crossings<'_, K> {
    // Whether crossing y stands before crossing x on the ring, or level with it.
    fn stands_before(&self, ring: Ring, y: usize, x: usize) -> bool
        requires y { y < length self.now.records.now }
        requires x { x < length self.now.records.now }
        ensures { result ≡ not_after_at (K.Arithmetic.meaning.not_after self.now.arith.now) self.now.records.now ring y x }
    {
        let here = self.records[y].spot(ring);
        let there = self.records[x].spot(ring);
        self.arith.not_after(here.mark, there.mark)
    }
}

// A crossing goes by its number here, as in the words, so each call asks that there is one of that number. What the calls promise is said over any records
// and corners, as in the theorem on charts, and so each of these is named.
impl<K: Arithmetic> Chains<'_, K> {
    // The slot of the chain of its edge at which crossing id is to be put in: behind all that do not stand after it.
    fn find(&self, ring: Ring, id: u32) -> usize
        requires { id < length self.now.crossings.records.now }
        ensures within { result < base ring self.now.crossings.corners + 6 * id }
        ensures finds { (list : List ℕ) → Links self.now.words.now (base ring self.now.crossings.corners) (start ring self.now.crossings.corners + edge_at self.now.crossings.records.now ring id) list → Below id list → length list ≤ id → result ≡ spot (not_after_at (K.Arithmetic.meaning.not_after self.now.crossings.arith.now) self.now.crossings.records.now ring) (base ring self.now.crossings.corners) id (start ring self.now.crossings.corners + edge_at self.now.crossings.records.now ring id) list }
    {
        let edge = self.crossings.records[id as usize].spot(ring).edge;
        let mut at = self.crossings.corners.start(ring) + edge as usize;
        // Counted, since the words may be any words, which could lead round in a circle.
        for _turn in 0..id {
            let y = self.words[at];
            if y >= id || !self.crossings.stands_before(ring, y as usize, id as usize) {
                break;
            }
            at = self.crossings.corners.pointer(ring, y);
        }
        at
    }

    // Puts crossing id into its place in the chain of its edge on the ring.
    fn link(&mut self, ring: Ring, id: u32)
        requires { id < length self.old.crossings.records.now }
        ensures same { (self.new.crossings ≡ self.old.crossings) × (self.new.words.ghost_name ≡ self.old.words.ghost_name) }
        ensures own { Linked (K.Arithmetic.meaning.not_after self.old.crossings.arith.now) self.old.crossings.corners self.old.crossings.records.now ring id self.old.words.now → Linked (K.Arithmetic.meaning.not_after self.old.crossings.arith.now) self.old.crossings.corners self.old.crossings.records.now ring (id + 1) self.new.words.now }
        ensures others { (n : ℕ) → Linked (K.Arithmetic.meaning.not_after self.old.crossings.arith.now) self.old.crossings.corners self.old.crossings.records.now ring id self.old.words.now → Linked (K.Arithmetic.meaning.not_after self.old.crossings.arith.now) self.old.crossings.corners self.old.crossings.records.now (other ring) n self.old.words.now → Linked (K.Arithmetic.meaning.not_after self.old.crossings.arith.now) self.old.crossings.corners self.old.crossings.records.now (other ring) n self.new.words.now }
        ensures notes { Linked (K.Arithmetic.meaning.not_after self.old.crossings.arith.now) self.old.crossings.corners self.old.crossings.records.now ring id self.old.words.now → Unlinked self.old.crossings.corners self.old.words.now self.new.words.now }
        ensures rest { drop (self.old.crossings.corners.one + self.old.crossings.corners.two + 6 * id + 2) self.new.words.now ≡ drop (self.old.crossings.corners.one + self.old.crossings.corners.two + 6 * id + 2) self.old.words.now }
    {
        let at = self.find(ring, id);
        self.words[self.crossings.corners.pointer(ring, id)] = self.words[at];
        self.words[at] = id;
    }

    // Puts crossing id into its place along both rings, and writes its other words.
    fn add(&mut self, id: u32)
        requires { id < length self.old.crossings.records.now }
        ensures same { (self.new.crossings ≡ self.old.crossings) × (self.new.words.ghost_name ≡ self.old.words.ghost_name) }
        ensures told { Chained (K.Arithmetic.meaning.not_after self.old.crossings.arith.now) self.old.crossings.corners self.old.crossings.records.now id self.old.words.now → Chained (K.Arithmetic.meaning.not_after self.old.crossings.arith.now) self.old.crossings.corners self.old.crossings.records.now (id + 1) self.new.words.now }
        ensures rest { drop (self.old.crossings.corners.one + self.old.crossings.corners.two + 6 * id + 6) self.new.words.now ≡ drop (self.old.crossings.corners.one + self.old.crossings.corners.two + 6 * id + 6) self.old.words.now }
    {
        let records = self.crossings.records;
        let k = self.crossings.corners.pointer(Ring::One, id);
        self.link(Ring::One, id);
        self.link(Ring::Two, id);
        describe(self.words, k, &records[id as usize]);
    }

    /// Tells all crossings in words, one after another.
    pub(crate) fn chain_all(&mut self)
        ensures same { self.new.words.ghost_name ≡ self.old.words.ghost_name }
        ensures told { Chained (K.Arithmetic.meaning.not_after self.old.crossings.arith.now) self.old.crossings.corners self.old.crossings.records.now (length self.old.crossings.records.now) self.new.words.now }
        ensures rest { drop (self.old.crossings.corners.one + self.old.crossings.corners.two + 6 * length self.old.crossings.records.now) self.new.words.now ≡ drop (self.old.crossings.corners.one + self.old.crossings.corners.two + 6 * length self.old.crossings.records.now) self.old.words.now }
    {
        self.words[..self.crossings.corners.slots()].fill(NONE);
        // By number, since a chain is told by the numbers of its crossings.
        for id in 0..self.crossings.records.len() as u32 {
            self.add(id);
        }
    }
}

// Writes the last four words of a crossing whose first word is at k.
fn describe<M>(words: &mut [u32], k: usize, crossing: &Record<M>)
    requires { k + 6 ≤ length words.old }
    ensures { words.new ≡ described words.old k crossing.now }
{
    words[k + 2] = crossing.one.edge;
    words[k + 3] = crossing.two.edge;
    words[k + 4] = side_word(crossing.leaving);
    words[k + 5] = 0;
}
