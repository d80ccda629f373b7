//! Accepted sources.

ghost use Rattle.std.specs.Prelude.{◌≡◌, IfErr, IfOk};
ghost use Rattle.gypsy_syntax.specs.{GypsyReading.{KeepsForm}, Views.SourceView.{source_of}};
ghost use Rattle.gypsy_check.specs.{Accepted.{IsAccepted}, GypsyChecking.{IsLeastUnless}};

use crate::fault::CheckFault;
use crate::procedures::check_source;
use gypsy_syntax::Source;
use stack_heap::Heap;
use std::marker::Model;

/// A source that keeps the form and breaks no static rule.
///
/// Contracts see it as the source. `IsAccepted` is known of each, by the clause `accepted` of `source`: above all that
/// its program fits, so that what a statement names is there, and of the kind that the statement wants.
#[derive(Debug, Drop)]
pub struct Accepted {
    source: Source,
}

impl Model for Accepted {
    ghost use Rattle.gypsy_syntax.specs.{Views.SourceView.{source_of}, declared.proc.Source.{Source}};
    ghost use Rattle.gypsy_check.specs.Accepted.{IsAccepted};
    ghost use Rattle.gypsy_syntax.specs.contracts.literal.Literal as literal;
    ghost use Rattle.gypsy_syntax.specs.contracts.statement.Stmt as statement;
    ghost use Rattle.std.specs.Coded.{codes};

    ghost Value = { Source };

    ghost coded = { Prim.hlevel (codes, literal.the_row.coded, statement.the_row.coded) };

    ghost view = { λ a. a.source };

    ghost invariant = { λ a. IsAccepted (source_of a.source) };
}

impl Accepted {
    /// The source.
    pub fn source(&self) -> &Source
        ensures value { result.now ≡ self.now }
        ensures accepted { IsAccepted (source_of self.now) }
    {
        &self.source
    }
}

/// Checks a source against the static rules.
///
/// # Errors
///
/// The least breach, place before rule, of all that there are; or out of memory. The time is linear in the text, but for
/// names that were picked so that they meet in a hash table, whose seed is fixed.
pub fn check<H: Heap>(heap: H, source: Source) -> Result<Accepted, CheckFault>
    requires { KeepsForm (source_of source) }
    ensures accepted { IfOk result (λ accepted. IsAccepted (source_of accepted)) }
    ensures kept { IfOk result (λ accepted. accepted ≡ source) }
    ensures least { IfErr result (IsLeastUnless (H.may_refuse heap) (source_of source)) }
{
    let mut best = None;
    check_source(heap, &mut best, &source)?;
    match best {
        None => Ok(Accepted { source }),
        Some(breach) => Err(CheckFault::Violation {
            rule: breach.rule,
            place: breach.place,
        }),
    }
}
