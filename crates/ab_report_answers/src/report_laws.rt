//! Each text has a report.
ghost use Rattle.std.specs.Prelude.{ℕ, List};
ghost use Rattle.ab_sigmod.specs.FileLoads.{FilesSeen};
ghost use Rattle.ab_existence.specs.Certainty.{OneHolds};
ghost use Rattle.ab_run.specs.declared.way.Way.{Way};
ghost use Rattle.ab_report_answers.specs.SomeReports.{HasReport, IsCutShort};

/// EACH TEXT HAS A REPORT, whatever is told of the files, or it is cut short at a command at which names run out.
pub fn each_text_has_a_report_or_is_cut_short()
    ensures { (way : Way) (text : List ℕ) (before : FilesSeen) → OneHolds (HasReport way text before) (IsCutShort way text before) }
{}
