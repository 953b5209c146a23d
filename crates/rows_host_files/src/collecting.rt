//! The numbers of rows, noted as the rows come.

ghost use Rattle.std.specs.Prelude.{IfOk, is_some};
ghost use Rattle.std.proofs.Common.{sym};
ghost use Rattle.std.proofs.Math.Bool.{or-false};
ghost use Rattle.gone_out.specs.Numbers.{has, IsEmpty};
ghost use Rattle.rows_host_files.specs.Collecting.{Collects, IsAdded};

use acceptor_store::RowVisitor;
use ballots::{Number, Row};
use gone_out::Known;
use std::alloc::{AllocError, Global};

/// Notes the numbers of the rows that it sees. It never has enough.
#[derive(Drop)]
pub(crate) struct Collector {
    pub(crate) known: Known,
}

impl Collector {
    /// One that has seen no row.
    pub(crate) fn new(alloc: Global) -> Result<Collector, AllocError>
        ensures rows { IfOk result (λ c. IsEmpty c.known.rows) }
        ensures votes { IfOk result (λ c. IsEmpty c.known.votes) }
    {
        Ok(Collector {
            known: Known::new(alloc)?,
        })
    }

    /// Notes the number of a row.
    fn note(&mut self, number: Number, row: &Row)
        ensures { IsAdded self.old.known self.new.known number (is_some row.now.vote) }
    {
        self.known.add(number, row.vote().is_some());
    }
}

impl RowVisitor for Collector {
    ghost saw = { λ old new items. Collects old.known new.known items };

    ghost has_enough = { λ _. ⊥ };

    fn see(&mut self, number: Number, row: &Row) -> bool {
        self.note(number, row);
        true
    }

    ghost saw_none = { λ it. record { rows = λ n. sym (or-false (has it.known.rows n)); votes = λ n. sym (or-false (has it.known.votes n)) } };
}
