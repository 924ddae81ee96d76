//! Worked counts, and how long the digits of a set are.

ghost use Rattle.std.specs.Prelude.{◌≡◌, codes, true};
ghost use Rattle.difference_counts.specs.Ahead.{AreLiteral};
ghost use Rattle.difference_report.specs.CountWords as Spec;
ghost use Rattle.difference_report.specs.Laws.{LengthsAreTold, prefix_is_literal, row_is_literal};

use compiler::Tables;
use gk_commands::Command;

/// How counts are written: exactly, or in two digits, and the last line's.
pub fn counts_are_written()
    ensures exact { Spec.count_words 2985984 ≡ codes "2,985,984" }
    ensures about { Spec.count_words 21579664890888164211722753766493 ≡ codes "about 2.2e31" }
    ensures carried { Spec.count_words 9960000000000 ≡ codes "about 1.0e13" }
    ensures half { Spec.count_words 1250000000000 ≡ codes "about 1.3e12" }
    ensures longest { Spec.count_words 999999999999 ≡ codes "999,999,999,999" }
    ensures one { Spec.numbers_words 1 ≡ codes "1 number" }
    ensures many { Spec.numbers_words 37289660931454747757856918502528092
        ≡ codes "37,289,660,931,454,747,757,856,918,502,528,092 numbers" }
{}

/// A set is said to have digits of another length than the one that stands beside it exactly if it
/// has some; else it is written with just that length.
pub fn lengths_are_told(old: &Tables, new: &Tables)
    ensures { LengthsAreTold old.now.commands new.now.commands }
{
    // So it is known that no literals have a star.
    let _old = recall(old);
    let _new = recall(new);
}

/// Recalls that no technology prefix and no literals of a zone prefix have a star.
fn recall(tables: &Tables)
    ensures { AreLiteral tables.now.commands }
{
    recall_lines(lines_of(tables));
}

/// The commands of a configuration.
fn lines_of(tables: &Tables) -> &[Command]
    ensures { result.now ≡ tables.now.commands }
{
    tables.commands().as_slice()
}

/// The same of these commands.
fn recall_lines(commands: &[Command])
    ensures { AreLiteral commands.now }
{
    for command in commands {
        recall_line(command);
    }
}

#[tactic(auto, using(plan_difference::proofs::GatherLemmas::pattern_is_literal, plan_difference::proofs::GatherLemmas::prefix_is_clean))]
/// The same of a command.
fn recall_line(command: &Command)
    ensures prefix { prefix_is_literal command.now ≡ true }
    ensures row { row_is_literal command.now ≡ true }
{
    match command {
        Command::ZonePrefix { pattern, .. } => {
            let _literals = pattern.literals();
        }
        Command::GwTypePrefix { prefix, .. } => {
            let _text = prefix.as_bytes();
        }
        _ => {}
    }
}
