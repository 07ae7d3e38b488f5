//! The mark itself.
ghost use Rattle.std.specs.Prelude.{◌≡◌, ◌≤◌, [], vec_len, All, IfOk};
ghost use Rattle.tp_model.specs.DiskHistory.{moment};
ghost use Rattle.tp_ready.specs.MarkView.{informed};
ghost use Rattle.tp_ready.specs.Seen.{RisesOn, number_of, risen, unrisen};

use crate::pass::Pass;
use crate::plays::{Audits, Dated, Loads, Place, Raises, Tells, Twin, Word};
use crate::raiser::Raiser;
use atomic_table::Table;
use std::alloc::{AllocError, Global};
use std::marker::{Brand, Model};
use tp_disk::Disk;

/// How many entries are known to be on the device. Only its raiser raises it, and nobody lowers it. Contracts see it as its name.
#[derive(Drop)]
pub struct Mark {
    word: Word,
}

impl Model for Mark {
    ghost use Rattle.std.specs.Prelude.{◌≡◌};
    ghost use Rattle.tp_ready.specs.Seen.{MarkName};

    ghost Value = { MarkName };

    ghost view = { λ m. m.word.shared.table_id };

    ghost invariant = { λ m. m.word.shared.table_id.words ≡ 1 };
}

impl Mark {
    /// Makes a mark that has the number `first`, its raiser, and `passes` passes. `AllocError` if memory is out.
    pub fn start(
        alloc: Global,
        first: u64,
        passes: u8,
    ) -> Result<(Mark, Raiser, Vec<Pass>), AllocError>
        ensures raiser { IfOk result (λ s. s.1 ≡ record { mark = s.0; at = first; rises = unrisen first }) }
        ensures count { IfOk result (λ s. vec_len s.2 ≡ passes) }
        ensures passes { IfOk result (λ s. All (λ pass. pass ≡ record { mark = s.0; at = first; least = 0; rises = unrisen first }) s.2.items) }
    {
        let (word, place) = Table::of_words(alloc, &[first], &first)?;
        let mark = Mark { word };
        let mut raiser = Raiser {
            raised: first,
            place,
        };
        let mut all = Vec::new(alloc);
        for _ in 0..passes {
            all.push(mark.pass(&mut raiser))?;
        }
        Ok((mark, raiser, all))
    }

    /// Makes one more pass, which has seen the mark's number.
    #[tactic(auto, using(crate::proofs::Steps::twins))]
    pub fn pass(&self, raiser: &mut Raiser) -> Pass
        requires { raiser.old.mark ≡ self.now }
        ensures pass { result ≡ record { mark = self.now; at = raiser.old.at; least = 0; rises = raiser.old.rises } }
        ensures raiser { raiser.new ≡ raiser.old }
    {
        let place = self.word.shared.split_seat::<Twin>(&mut raiser.place);
        Pass {
            seen: raiser.raised,
            place,
        }
    }

    /// Loads the mark, in one step and without a lock. Other threads may raise it meanwhile, so its clauses say two things. What it shows
    /// is at least what `pass` saw before, and at least what it was told. It is the number to which the mark was raised last, by rises that
    /// go on from those that `pass` saw before.
    pub fn load(&self, pass: &mut Pass) -> u64
        requires { pass.old.mark ≡ self.now }
        ensures pass { pass.new ≡ record pass.old { at = result; rises = pass.new.rises } }
        ensures rises { pass.old.at ≤ result }
        ensures told { pass.old.least ≤ result }
        ensures risen { RisesOn pass.old.rises pass.new.rises × (result ≡ number_of pass.new.rises) }
    {
        let shown = self.word.shared.load::<Loads>(&mut pass.place, 0);
        pass.seen = shown;
        pass.seen
    }

    /// Raises the mark to `to`, in one step. If it is already there, it stays. The rise is dated by `disk`, as it is now: passes that load
    /// it see at which moment of the device the mark was raised.
    pub fn raise<D: Disk>(&self, raiser: &mut Raiser, to: u64, disk: &D)
        requires { raiser.old.mark ≡ self.now }
        ensures { raiser.new ≡ risen raiser.old to (moment (D.state disk.now)) }
    {
        self.raise_at::<Brand, D>(raiser, to, disk);
    }

    // Raises the mark, at the moment that is picked, which a contract names by what is lent as `_disk`.
    fn raise_at<A: Dated, D>(&self, raiser: &mut Raiser, to: u64, _disk: &D)
        requires { raiser.old.mark ≡ self.now }
        ensures { raiser.new ≡ risen raiser.old to A.moment }
    {
        let found = self
            .word
            .shared
            .fetch_max::<Raises<A>>(&mut raiser.place, 0, to);
        raiser.raised = found.max(to);
    }

    /// Proves that what `pass` saw is at most what the mark was raised to. It is the last of the rises that `pass` saw, from which all of
    /// them go on. It changes nothing.
    pub fn settle(&self, raiser: &mut Raiser, pass: &mut Pass)
        requires marks { (raiser.old.mark ≡ self.now) × (pass.old.mark ≡ self.now) }
        ensures same { (raiser.new ≡ raiser.old) × (pass.new ≡ pass.old) }
        ensures settled { pass.old.at ≤ raiser.old.at }
        ensures risen { RisesOn pass.old.rises raiser.old.rises × (pass.old.at ≡ number_of pass.old.rises) }
    {
        self.tell(&mut raiser.place, &mut pass.place);
        self.word.shared.load::<Audits>(&mut raiser.place, 0);
    }

    // Tells the seat `to` what the seat `of` saw.
    #[tactic(auto, using(crate::proofs::Steps::twins, crate::proofs::Steps::tells))]
    fn tell(&self, to: &mut Place, of: &mut Place)
        requires marks { (to.old.table_id ≡ self.now) × (of.old.table_id ≡ self.now) }
        ensures to { (to.new.table_id ≡ to.old.table_id) × (to.new.id ≡ to.old.id) × (to.new.me ≡ (informed to.old.me.0 of.old.me.0.at of.old.me.0.rises, to.old.me.1)) }
        ensures of { (of.new.table_id ≡ of.old.table_id) × (of.new.id ≡ of.old.id) × (of.new.me ≡ of.old.me) }
    {
        let twin = self.word.shared.split_seat::<Twin>(of);
        self.word.shared.join_seat::<Tells>(to, twin);
    }
}
