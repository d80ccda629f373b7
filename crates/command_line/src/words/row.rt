//! The words of each command.
ghost use Rattle.command_line.specs.{CommandWords.{ReadsWordsUnless, ReadsExactly, spelled}, CommandRows.{check_row, mean_row, pit_row, build_row, pcheck_row}};
ghost use Rattle.command_line.specs.CommandRows.{prun_row, pbuild_row, run_row, go_row, show_row, migrate_row, asm_row, unasm_row, need_row, cert_row};
ghost use Rattle.command_line.specs.CommandRows.{debug_row, pdebug_row, idebug_row, turns_row, big_row, mini_row, quick_row, row_of, command_of};

use crate::command::Command;
use crate::words::reader::{
    WordsFault, debug_level, end, file, limit, procedures, seed, size, tasks, turn_length,
};
use stack_heap::Heap;

/// `check SRC`
#[tactic(auto, unfolding(crate::specs::CommandRows::check_row))]
fn check_row<H: Heap>(heap: H, words: &[String]) -> Result<Command, WordsFault>
    ensures { ReadsWordsUnless (H.may_refuse heap) (λ command. command) result (check_row (spelled words.now)) }
{
    let (source, words) = file(heap, words)?;
    end(words)?;
    Ok(Command::Check { source })
}

/// `mean SRC VALS CTRL TEMP LIMIT`
#[tactic(auto, unfolding(crate::specs::CommandRows::mean_row))]
fn mean_row<H: Heap>(heap: H, words: &[String]) -> Result<Command, WordsFault>
    ensures { ReadsWordsUnless (H.may_refuse heap) (λ command. command) result (mean_row (spelled words.now)) }
{
    let (source, words) = file(heap, words)?;
    let (values, words) = file(heap, words)?;
    let (control, words) = size(words)?;
    let (temporary, words) = size(words)?;
    let (limit, words) = limit(words)?;
    end(words)?;
    Ok(Command::Mean {
        source,
        values,
        control,
        temporary,
        limit,
    })
}

/// `pit SRC CTRL TEMP OUT`
#[tactic(auto, unfolding(crate::specs::CommandRows::pit_row))]
fn pit_row<H: Heap>(heap: H, words: &[String]) -> Result<Command, WordsFault>
    ensures { ReadsWordsUnless (H.may_refuse heap) (λ command. command) result (pit_row (spelled words.now)) }
{
    let (source, words) = file(heap, words)?;
    let (control, words) = size(words)?;
    let (temporary, words) = size(words)?;
    let (piton, words) = file(heap, words)?;
    end(words)?;
    Ok(Command::Pit {
        source,
        control,
        temporary,
        piton,
    })
}

/// `build SRC CTRL TEMP IMG`
#[tactic(auto, unfolding(crate::specs::CommandRows::build_row))]
fn build_row<H: Heap>(heap: H, words: &[String]) -> Result<Command, WordsFault>
    ensures { ReadsWordsUnless (H.may_refuse heap) (λ command. command) result (build_row (spelled words.now)) }
{
    let (source, words) = file(heap, words)?;
    let (control, words) = size(words)?;
    let (temporary, words) = size(words)?;
    let (image, words) = file(heap, words)?;
    end(words)?;
    Ok(Command::Build {
        source,
        control,
        temporary,
        image,
    })
}

/// `pcheck PIT`
#[tactic(auto, unfolding(crate::specs::CommandRows::pcheck_row))]
fn pcheck_row<H: Heap>(heap: H, words: &[String]) -> Result<Command, WordsFault>
    ensures { ReadsWordsUnless (H.may_refuse heap) (λ command. command) result (pcheck_row (spelled words.now)) }
{
    let (piton, words) = file(heap, words)?;
    end(words)?;
    Ok(Command::Pcheck { piton })
}

/// `prun PIT LIMIT`
#[tactic(auto, unfolding(crate::specs::CommandRows::prun_row))]
fn prun_row<H: Heap>(heap: H, words: &[String]) -> Result<Command, WordsFault>
    ensures { ReadsWordsUnless (H.may_refuse heap) (λ command. command) result (prun_row (spelled words.now)) }
{
    let (piton, words) = file(heap, words)?;
    let (limit, words) = limit(words)?;
    end(words)?;
    Ok(Command::Prun { piton, limit })
}

/// `pbuild PIT IMG`
#[tactic(auto, unfolding(crate::specs::CommandRows::pbuild_row))]
fn pbuild_row<H: Heap>(heap: H, words: &[String]) -> Result<Command, WordsFault>
    ensures { ReadsWordsUnless (H.may_refuse heap) (λ command. command) result (pbuild_row (spelled words.now)) }
{
    let (piton, words) = file(heap, words)?;
    let (image, words) = file(heap, words)?;
    end(words)?;
    Ok(Command::Pbuild { piton, image })
}

/// `run IMG VALS BUDGET`
#[tactic(auto, unfolding(crate::specs::CommandRows::run_row))]
fn run_row<H: Heap>(heap: H, words: &[String]) -> Result<Command, WordsFault>
    ensures { ReadsWordsUnless (H.may_refuse heap) (λ command. command) result (run_row (spelled words.now)) }
{
    let (image, words) = file(heap, words)?;
    let (values, words) = file(heap, words)?;
    let (budget, words) = limit(words)?;
    end(words)?;
    Ok(Command::Run {
        image,
        values,
        budget,
    })
}

/// `go SRC VALS CTRL TEMP BUDGET IMG`
#[tactic(auto, unfolding(crate::specs::CommandRows::go_row))]
fn go_row<H: Heap>(heap: H, words: &[String]) -> Result<Command, WordsFault>
    ensures { ReadsWordsUnless (H.may_refuse heap) (λ command. command) result (go_row (spelled words.now)) }
{
    let (source, words) = file(heap, words)?;
    let (values, words) = file(heap, words)?;
    let (control, words) = size(words)?;
    let (temporary, words) = size(words)?;
    let (budget, words) = limit(words)?;
    let (image, words) = file(heap, words)?;
    end(words)?;
    Ok(Command::Go {
        source,
        values,
        control,
        temporary,
        budget,
        image,
    })
}

/// `show IMG`
#[tactic(auto, unfolding(crate::specs::CommandRows::show_row))]
fn show_row<H: Heap>(heap: H, words: &[String]) -> Result<Command, WordsFault>
    ensures { ReadsWordsUnless (H.may_refuse heap) (λ command. command) result (show_row (spelled words.now)) }
{
    let (image, words) = file(heap, words)?;
    end(words)?;
    Ok(Command::Show { image })
}

/// `migrate IMG OUT`
#[tactic(auto, unfolding(crate::specs::CommandRows::migrate_row))]
fn migrate_row<H: Heap>(heap: H, words: &[String]) -> Result<Command, WordsFault>
    ensures { ReadsWordsUnless (H.may_refuse heap) (λ command. command) result (migrate_row (spelled words.now)) }
{
    let (image, words) = file(heap, words)?;
    let (output, words) = file(heap, words)?;
    end(words)?;
    Ok(Command::Migrate { image, output })
}

/// `asm TEXT IMG`
#[tactic(auto, unfolding(crate::specs::CommandRows::asm_row))]
fn asm_row<H: Heap>(heap: H, words: &[String]) -> Result<Command, WordsFault>
    ensures { ReadsWordsUnless (H.may_refuse heap) (λ command. command) result (asm_row (spelled words.now)) }
{
    let (assembly, words) = file(heap, words)?;
    let (image, words) = file(heap, words)?;
    end(words)?;
    Ok(Command::Asm { assembly, image })
}

/// `unasm IMG OUT`
#[tactic(auto, unfolding(crate::specs::CommandRows::unasm_row))]
fn unasm_row<H: Heap>(heap: H, words: &[String]) -> Result<Command, WordsFault>
    ensures { ReadsWordsUnless (H.may_refuse heap) (λ command. command) result (unasm_row (spelled words.now)) }
{
    let (image, words) = file(heap, words)?;
    let (assembly, words) = file(heap, words)?;
    end(words)?;
    Ok(Command::Unasm { image, assembly })
}

/// `need SRC CERT`
#[tactic(auto, unfolding(crate::specs::CommandRows::need_row))]
fn need_row<H: Heap>(heap: H, words: &[String]) -> Result<Command, WordsFault>
    ensures { ReadsWordsUnless (H.may_refuse heap) (λ command. command) result (need_row (spelled words.now)) }
{
    let (source, words) = file(heap, words)?;
    let (certificate, words) = file(heap, words)?;
    end(words)?;
    Ok(Command::Need {
        source,
        certificate,
    })
}

/// `cert SRC CERT CTRL TEMP`
#[tactic(auto, unfolding(crate::specs::CommandRows::cert_row))]
fn cert_row<H: Heap>(heap: H, words: &[String]) -> Result<Command, WordsFault>
    ensures { ReadsWordsUnless (H.may_refuse heap) (λ command. command) result (cert_row (spelled words.now)) }
{
    let (source, words) = file(heap, words)?;
    let (certificate, words) = file(heap, words)?;
    let (control, words) = size(words)?;
    let (temporary, words) = size(words)?;
    end(words)?;
    Ok(Command::Cert {
        source,
        certificate,
        control,
        temporary,
    })
}

/// `debug LEVEL SRC VALS CTRL TEMP SCRIPT`
#[tactic(auto, unfolding(crate::specs::CommandRows::debug_row))]
fn debug_row<H: Heap>(heap: H, words: &[String]) -> Result<Command, WordsFault>
    ensures { ReadsWordsUnless (H.may_refuse heap) (λ command. command) result (debug_row (spelled words.now)) }
{
    let (level, words) = debug_level(words)?;
    let (source, words) = file(heap, words)?;
    let (values, words) = file(heap, words)?;
    let (control, words) = size(words)?;
    let (temporary, words) = size(words)?;
    let (script, words) = file(heap, words)?;
    end(words)?;
    Ok(Command::Debug {
        level,
        source,
        values,
        control,
        temporary,
        script,
    })
}

/// `pdebug PIT SCRIPT`
#[tactic(auto, unfolding(crate::specs::CommandRows::pdebug_row))]
fn pdebug_row<H: Heap>(heap: H, words: &[String]) -> Result<Command, WordsFault>
    ensures { ReadsWordsUnless (H.may_refuse heap) (λ command. command) result (pdebug_row (spelled words.now)) }
{
    let (piton, words) = file(heap, words)?;
    let (script, words) = file(heap, words)?;
    end(words)?;
    Ok(Command::Pdebug { piton, script })
}

/// `idebug IMG VALS SCRIPT`
#[tactic(auto, unfolding(crate::specs::CommandRows::idebug_row))]
fn idebug_row<H: Heap>(heap: H, words: &[String]) -> Result<Command, WordsFault>
    ensures { ReadsWordsUnless (H.may_refuse heap) (λ command. command) result (idebug_row (spelled words.now)) }
{
    let (image, words) = file(heap, words)?;
    let (values, words) = file(heap, words)?;
    let (script, words) = file(heap, words)?;
    end(words)?;
    Ok(Command::Idebug {
        image,
        values,
        script,
    })
}

/// `turns Q BUDGET CTRL TEMP SRC VALS`, with up to seven further pairs `SRC VALS`
#[tactic(auto, unfolding(crate::specs::CommandRows::turns_row))]
fn turns_row<H: Heap>(heap: H, words: &[String]) -> Result<Command, WordsFault>
    ensures { ReadsWordsUnless (H.may_refuse heap) (λ command. command) result (turns_row (spelled words.now)) }
{
    let (turn, words) = turn_length(words)?;
    let (budget, words) = limit(words)?;
    let (control, words) = size(words)?;
    let (temporary, words) = size(words)?;
    let (tasks, words) = tasks(heap, words)?;
    end(words)?;
    Ok(Command::Turns {
        turn,
        budget,
        control,
        temporary,
        tasks,
    })
}

/// `big NUMBER SIZE`
#[tactic(auto, unfolding(crate::specs::CommandRows::big_row))]
fn big_row(words: &[String]) -> Result<Command, WordsFault>
    ensures { ReadsExactly (λ command. command) result (big_row (spelled words.now)) }
{
    let (number, words) = seed(words)?;
    let (procedures, words) = procedures(words)?;
    end(words)?;
    Ok(Command::Big { number, procedures })
}

/// `mini SRC OUT`
#[tactic(auto, unfolding(crate::specs::CommandRows::mini_row))]
fn mini_row<H: Heap>(heap: H, words: &[String]) -> Result<Command, WordsFault>
    ensures { ReadsWordsUnless (H.may_refuse heap) (λ command. command) result (mini_row (spelled words.now)) }
{
    let (program, words) = file(heap, words)?;
    let (source, words) = file(heap, words)?;
    end(words)?;
    Ok(Command::Mini { program, source })
}

/// `quick SRC CTRL TEMP IMG`
#[tactic(auto, unfolding(crate::specs::CommandRows::quick_row))]
fn quick_row<H: Heap>(heap: H, words: &[String]) -> Result<Command, WordsFault>
    ensures { ReadsWordsUnless (H.may_refuse heap) (λ command. command) result (quick_row (spelled words.now)) }
{
    let (source, words) = file(heap, words)?;
    let (control, words) = size(words)?;
    let (temporary, words) = size(words)?;
    let (image, words) = file(heap, words)?;
    end(words)?;
    Ok(Command::Quick {
        source,
        control,
        temporary,
        image,
    })
}

/// The command whose name is the word, with the words after it.
#[tactic(auto, unfolding(crate::specs::CommandRows::row_of, crate::specs::CommandRows::row_with, crate::specs::CommandRows::rows))]
fn row_of<H: Heap>(heap: H, word: &str, words: &[String]) -> Result<Command, WordsFault>
    ensures { ReadsWordsUnless (H.may_refuse heap) (λ command. command) result (row_of word.now (spelled words.now)) }
{
    match word {
        "check" => check_row(heap, words),
        "mean" => mean_row(heap, words),
        "pit" => pit_row(heap, words),
        "build" => build_row(heap, words),
        "pcheck" => pcheck_row(heap, words),
        "prun" => prun_row(heap, words),
        "pbuild" => pbuild_row(heap, words),
        "run" => run_row(heap, words),
        "go" => go_row(heap, words),
        "show" => show_row(heap, words),
        "migrate" => migrate_row(heap, words),
        "asm" => asm_row(heap, words),
        "unasm" => unasm_row(heap, words),
        "need" => need_row(heap, words),
        "cert" => cert_row(heap, words),
        "debug" => debug_row(heap, words),
        "pdebug" => pdebug_row(heap, words),
        "idebug" => idebug_row(heap, words),
        "turns" => turns_row(heap, words),
        "big" => big_row(words),
        "mini" => mini_row(heap, words),
        "quick" => quick_row(heap, words),
        _ => Err(WordsFault::Usage),
    }
}

/// The command that the words ask for.
#[tactic(auto, unfolding(crate::specs::CommandRows::command_of))]
pub fn command_of<H: Heap>(heap: H, words: &[String]) -> Result<Command, WordsFault>
    ensures { ReadsWordsUnless (H.may_refuse heap) (λ command. command) result (command_of (spelled words.now)) }
{
    match words {
        [] => Err(WordsFault::Usage),
        [word, words @ ..] => row_of(heap, word.as_str(), words),
    }
}
