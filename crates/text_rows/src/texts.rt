//! Texts that are written: worked routes, and a verdict.
ghost use Rattle.text_rows.specs.Rows.{WritesLongRoute, WritesNoEdge, WritesOneVia, CoversLongRoute};

use gr_base::Cells;
use gr_text::Text;
use report_text::report;
use route_evaluator::Verdict;
use std::alloc::{AllocError, Global};

/// Does nothing. Its clauses are worked examples, shown by computing the definitions.
pub(crate) fn worked_rows()
    ensures long_route { WritesLongRoute }
    ensures no_edge { WritesNoEdge }
    ensures one_via { WritesOneVia }
    ensures covers { CoversLongRoute }
{}

/// The report of the verdict with the greatest numbers.
pub(crate) fn put_greatest(alloc: Global, told: &mut Text) -> Result<(), AllocError> {
    let verdict = Verdict {
        routed: u32::MAX,
        total: u128::MAX,
        max: u64::MAX,
        wirelength: 0,
        vias: 10,
        unjoined: Cells::new(alloc),
    };
    put_report(alloc, &verdict, told)
}

fn put_report(alloc: Global, verdict: &Verdict, told: &mut Text) -> Result<(), AllocError> {
    let text = report(alloc, verdict)?;
    told.put(text.bytes())
}
