// The list of the best k so far: vans with their distances, in order of distance and then van number at every moment.
#![tactic(auto)]

ghost use Rattle.std.specs.Prelude.{◌≡◌, ℕ, ◌+◌, ◌≤◌, ◌<◌, length, take, drop, map};
ghost use Rattle.fleet.specs.Question.{listed_before};
ghost use Rattle.best_list.specs.Best.{Best, listing, entries, nothing_listed, limit_of, pass, offered, InOrder, Standing};

use std::marker::Model;

// A van offered: its distance and its number. Offers stand in the order in which they are listed.
#[derive(Clone, Copy, PartialEq, Eq)]
pub struct Offer {
    pub far: u32,
    pub van: u32,
}

impl Offer {
    // This offer is listed before another. The order is written out in steps, so that a jump follows each: a derived one is compiled without, which takes longer, and with `||` the numbers are compared at each distance too.
    #[tactic(auto, unfolding(fleet::specs::Question::listed_before))]
    pub fn comes_before(self, other: Offer) -> bool
        ensures { (stampOf : ℕ → ℕ) → result ≡ listed_before (listing stampOf self) (listing stampOf other) }
    {
        if self.far < other.far {
            return true;
        }
        if self.far == other.far {
            return self.van < other.van;
        }
        false
    }
}

// Room for offers, of which the first `len` are listed, and how many may be.
#[derive(Clone, Copy)]
pub struct BestList {
    offers: [Offer; BestList::MOST],
    len: usize,
    k: usize,
}

impl Model for BestList {
    ghost use Rattle.std.specs.Prelude.{◌++◌, length, take, drop};
    ghost use Rattle.std.proofs.Common.{arith, refl};
    ghost use Rattle.std.proofs.lemmas.List.{take-append-drop, length-take-le};
    ghost use Rattle.best_list.specs.Best.{Best, Standing};

    ghost Value = { Best };

    ghost view = { λ l. record { offers = take l.len l.offers; rest = drop l.len l.offers; k = l.k } };

    ghost invariant = { λ l. Standing l.offers l.len l.k };

    ghost inverse = { λ b. record { offers = b.offers ++ b.rest; len = length b.offers; k = b.k } };

    ghost inverse_ok = { λ l h. rw (take-append-drop l.len l.offers, length-take-le l.len l.offers (omega (arith, h.room, h.most, h.all))) refl };
}

impl BestList {
    // No list has more vans.
    pub const MOST: usize = 32;

    // Nothing is listed yet.
    pub fn new(k: usize) -> Self
        requires { (1 ≤ k) × (k ≤ 32) }
        ensures { result ≡ nothing_listed k }
    {
        BestList {
            offers: [Offer { far: 0, van: 0 }; BestList::MOST],
            len: 0,
            k,
        }
    }

    // The first `len` of some offers are listed, which are in order.
    pub fn of(offers: [Offer; BestList::MOST], len: usize, k: usize) -> Self
        requires { Standing offers len k }
        ensures { result ≡ record { offers = take len offers; rest = drop len offers; k = k } }
    {
        BestList { offers, len, k }
    }

    // The offers that are listed, the first of them first.
    pub fn offers(&self) -> &[Offer]
        ensures offers { result.now ≡ self.now.offers }
        ensures order { InOrder self.now.offers }
        ensures room { length self.now.offers ≤ self.now.k }
        ensures most { self.now.k ≤ 32 }
    {
        &self.offers[..self.len]
    }

    // What is farther than this is not listed any more: the distance of the k-th van, and while there are fewer 4,294,967,294, one less than
    // FAR: no Option, since every distance is compared with it, and nothing at FAR is within it.
    pub fn limit(&self) -> u32
        ensures { (stampOf : ℕ → ℕ) → result ≡ limit_of self.now.k (entries stampOf self.now) }
    {
        if self.len < self.k {
            4294967294
        } else {
            self.offers[self.k - 1].far
        }
    }

    // A van offered. Where the list is full and it comes before the last one, that one makes room.
    pub fn offer(&mut self, offer: Offer)
        ensures k { self.new.k ≡ self.old.k }
        ensures list { (stampOf : ℕ → ℕ) → entries stampOf self.new ≡ offered self.old.k (listing stampOf offer) (entries stampOf self.old) }
    {
        if self.limit() < offer.far {
            return;
        }
        let mut end = self.len;
        if self.k <= end {
            end -= 1;
            if !offer.comes_before(self.offers[end]) {
                return;
            }
        }
        put_in(&mut self.offers, end, offer);
        self.len = end + 1;
    }
}

// An offer put in among the first `end`, which are in order: those that it comes before move on by one place each, from the back, since vans come roughly nearest first.
fn put_in(offers: &mut [Offer; BestList::MOST], end: usize, offer: Offer)
    requires room { end < 32 }
    requires order { InOrder (take end offers.old) }
    ensures all { length offers.new ≡ 32 }
    ensures order { InOrder (take (end + 1) offers.new) }
    ensures list { (stampOf : ℕ → ℕ) → map (listing stampOf) (take (end + 1) offers.new) ≡ pass (listing stampOf offer) (map (listing stampOf) (take end offers.old)) }
{
    for i in (0..end).rev() {
        let here = offers[i];
        if !offer.comes_before(here) {
            offers[i + 1] = offer;
            return;
        }
        offers[i + 1] = here;
    }
    offers[0] = offer;
}
