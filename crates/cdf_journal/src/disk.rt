//! What a disk is: a file and the log beside it, and what a crash may leave of the two.

ghost use Rattle.std.specs.Prelude.{◌≡◌, ◌≤◌, ◌+◌, ◌||◌, ℕ, List, Bool, length, take, max, is_err, is_some, IfOk, OnOk, OnErr, IsSome, IsTrue, IfSome};
ghost use Rattle.std.specs.Option.{option_map};
ghost use Rattle.std.specs.declared.option.Option.{Option};
ghost use Rattle.cdf_base.specs.Bytes.{put};
ghost use Rattle.cdf_base.specs.Causes.{HasCause, HasCauseOf};
ghost use Rattle.cdf_store.specs.Attaching.{is_failed};
ghost use Rattle.cdf_store.specs.Reading.{ReadsAt};
ghost use Rattle.cdf_journal.specs.declared.disk.Part.{Part};
ghost use Rattle.cdf_journal.specs.declared.disk.Part.TheVariants.{Main};
ghost use Rattle.cdf_journal.specs.Crashes.{Elapses, Follows, InPart, Only, Parts, ReadsSome, Shortened, Torn, part_of, with_part};

use cdf_store::{AttachError, Failed};

/// A part of a disk.
#[derive(Clone, Copy, Debug, PartialEq, Eq)]
pub enum Part {
    /// The file.
    Main,
    /// The log beside it.
    Log,
}

/// A file and its log. Each call may take time, in which a crash may come; so may the time between two calls.
pub trait Disk {
    /// What reads give, where the disk tells it. A file that is not there counts as an empty one, and so does its log.
    ghost seen: { Self → Option Parts };

    /// Whether there is a file of a name, where the disk tells what reads give.
    ghost there: { Self → List ℕ → Bool };

    /// The length of each part, once a file is attached.
    ghost size: { Self → Part → ℕ };

    /// What a crash at this moment may leave.
    ghost may_leave: { Self → Parts → Type 0 };

    /// The moment, as a number that does not fall.
    ghost moment: { Self → ℕ };

    /// What a crash at some moment from that one on might have left, during a call or between two.
    ghost left_since: { Self → ℕ → Parts → Type 0 };

    /// How often the disk has failed.
    ghost faults: { Self → ℕ };

    /// What a disk says of each call but `len` beyond these clauses: of itself before and after, and whether it failed.
    ghost also: { Self → Self → Bool → Type 0 } = { λ _ _ _. Unit {0} };

    /// Attaches the file of this name and its log, and answers the file's length, or `None` where there is no such file. With
    /// `make` an absent file is made, empty. So is an absent log.
    fn attach(&mut self, name: &str, make: bool) -> Result<Option<u64>, AttachError>
        ensures length { IfOk result (λ found. IfSome found (λ n. n ≡ size self.new Main)) }
        ensures made { IsTrue make → IfOk result (λ found. IsSome found) }
        ensures exact { IfSome (seen self.old) (λ _. IfOk result (λ found. is_some found ≡ (there self.old name.now || make))) }
        ensures seen { seen self.new ≡ seen self.old }
        ensures crash { (c : Parts) → may_leave self.new c → may_leave self.old c }
        ensures time { Elapses (moment self.old) (moment self.new) (left_since self.old) (left_since self.new) (may_leave self.new) }
        ensures cause { HasCauseOf AttachError.Failed (faults self.old) (faults self.new) result }
        ensures also { also self.old self.new (is_failed result) };

    /// The length of a part.
    fn len(&self, part: Part) -> u64
        ensures { result ≡ size self.now part };

    /// Reads bytes of a part from `place` on to the front of `out`, and answers how many.
    fn read_at(&mut self, part: Part, place: u64, out: &mut [u8]) -> Result<usize, Failed>
        ensures bytes { IfSome (seen self.old) (λ parts. ReadsAt (Some (part_of parts part)) place out.new result) }
        ensures some { IfOk result (ReadsSome (size self.old part) place (length out.new)) }
        ensures seen { seen self.new ≡ seen self.old }
        ensures sizes { (other : Part) → size self.new other ≡ size self.old other }
        ensures crash { (c : Parts) → may_leave self.new c → may_leave self.old c }
        ensures time { Elapses (moment self.old) (moment self.new) (left_since self.old) (left_since self.new) (may_leave self.new) }
        ensures cause { HasCause (faults self.old) (faults self.new) result }
        ensures also { also self.old self.new (is_err result) };

    /// Writes over what is there, and past the end. Until a sync, a crash may leave any bytes in the range. After a fault the front
    /// of the bytes may have been written.
    fn write_at(&mut self, part: Part, place: u64, bytes: &[u8]) -> Result<(), Failed>
        requires { place ≤ size self.old part }
        ensures written { OnOk result (seen self.new ≡ option_map (λ parts. with_part parts part (put (part_of parts part) place bytes.now)) (seen self.old)) }
        ensures front { OnErr result ((n : ℕ) × (n ≤ length bytes.now) × (seen self.new ≡ option_map (λ parts. with_part parts part (put (part_of parts part) place (take n bytes.now))) (seen self.old))) }
        ensures longer { OnOk result (size self.new part ≡ max (size self.old part) (place + length bytes.now)) }
        ensures no_shorter { size self.old part ≤ size self.new part }
        ensures no_longer { size self.new part ≤ max (size self.old part) (place + length bytes.now) }
        ensures beside { (other : Part) → (other ≡ part → ⊥) → size self.new other ≡ size self.old other }
        ensures crash { Follows (InPart part (Torn place (length bytes.now))) (may_leave self.old) (may_leave self.new) }
        ensures time { Elapses (moment self.old) (moment self.new) (left_since self.old) (left_since self.new) (may_leave self.new) }
        ensures cause { HasCause (faults self.old) (faults self.new) result }
        ensures also { also self.old self.new (is_err result) };

    /// Cuts a part. Until a sync, a crash may leave any length in between.
    fn cut(&mut self, part: Part, n: u64) -> Result<(), Failed>
        requires { n ≤ size self.old part }
        ensures cut { OnOk result (seen self.new ≡ option_map (λ parts. with_part parts part (take n (part_of parts part))) (seen self.old)) }
        ensures stays { OnErr result (seen self.new ≡ seen self.old) }
        ensures shorter { OnOk result (size self.new part ≡ n) }
        ensures kept { OnErr result (size self.new part ≡ size self.old part) }
        ensures beside { (other : Part) → (other ≡ part → ⊥) → size self.new other ≡ size self.old other }
        ensures crash { Follows (InPart part (Shortened n)) (may_leave self.old) (may_leave self.new) }
        ensures time { Elapses (moment self.old) (moment self.new) (left_since self.old) (left_since self.new) (may_leave self.new) }
        ensures cause { HasCause (faults self.old) (faults self.new) result }
        ensures also { also self.old self.new (is_err result) };

    /// Has both parts stored. After it, a crash leaves what reads give.
    fn sync(&mut self) -> Result<(), Failed>
        ensures durable { OnOk result (IfSome (seen self.old) (λ parts. Only parts (may_leave self.new))) }
        ensures seen { seen self.new ≡ seen self.old }
        ensures sizes { (part : Part) → size self.new part ≡ size self.old part }
        ensures crash { (c : Parts) → may_leave self.new c → may_leave self.old c }
        ensures time { Elapses (moment self.old) (moment self.new) (left_since self.old) (left_since self.new) (may_leave self.new) }
        ensures cause { HasCause (faults self.old) (faults self.new) result }
        ensures also { also self.old self.new (is_err result) };

    /// This moment is one of those since an earlier one.
    ghost counts_now: { (disk : Self) (t : ℕ) (c : Parts) → t ≤ moment disk → may_leave disk c → left_since disk t c };

    /// Since this moment there is no other.
    ghost only_now: { (disk : Self) (c : Parts) → left_since disk (moment disk) c → may_leave disk c };

    /// The lengths are those of the parts.
    ghost sized: { (disk : Self) (part : Part) → IfSome (seen disk) (λ parts. size disk part ≡ length (part_of parts part)) };
}
