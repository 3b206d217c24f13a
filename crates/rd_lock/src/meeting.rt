//! The meeting of two passes, which puts what they have seen in order.
ghost use Rattle.std.specs.Prelude.{◌≡◌, ◌≤◌};
ghost use Rattle.rd_lock.specs.Lists.{AreComparable};
ghost use Rattle.rd_lock.specs.Locks.{seen, served_seen, IsOut, IsPassOf, IsSamePass};

use super::locks::TicketLock;
use super::passes::Pass;
use super::plays::{Joins, LoadsServed, Splits};
use super::rule::SERVED;
use super::views::Recorded;

impl<T: Recorded> TicketLock<T> {
    /// Lets both passes load the word `served` in one step, and returns that word and the two
    /// passes. In contracts, what one of them has seen is then a beginning of what the other has
    /// seen.
    ///
    /// Their seats are joined into one, which makes the load and is split again. The passes must be
    /// this lock's, and neither wait nor hold.
    pub fn meet(&self, one: Pass<T>, other: Pass<T>) -> (u64, Pass<T>, Pass<T>)
        requires own { IsPassOf self.now one × IsPassOf self.now other }
        requires out { IsOut one × IsOut other }
        ensures pass { IsPassOf self.now result.1 × IsPassOf self.now result.2 }
        ensures out { IsOut result.1 × IsOut result.2 }
        ensures unchanged { IsSamePass one result.1 × IsSamePass other result.2 }
        ensures order { AreComparable (seen one) (seen other) }
        ensures newest { (served_seen one ≤ result.0) × (served_seen other ≤ result.0) }
        ensures served { (served_seen result.1 ≡ result.0) × (served_seen result.2 ≡ result.0) }
    {
        let shared = &self.table.shared;
        let Pass {
            seat: mut both,
            number,
        } = one;
        let Pass {
            seat: joined,
            number: other_number,
        } = other;
        shared.join_seat::<Joins>(&mut both, joined);
        let served = shared.load::<LoadsServed>(&mut both, SERVED);
        let second = shared.split_seat::<Splits>(&mut both);
        (
            served,
            Pass { seat: both, number },
            Pass {
                seat: second,
                number: other_number,
            },
        )
    }
}
