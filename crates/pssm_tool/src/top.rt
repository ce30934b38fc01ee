//! The top call: from words to a status.
ghost use Rattle.std.specs.Prelude.{◌≡◌, ◌≢◌, ◌≤◌, ◌⊎◌, ℕ, List, IsSome, IfOk, IfErr};
ghost use Rattle.std.specs.Io.KnownBytes.{Appends, Keeps};
ghost use Rattle.pssm_semantics.specs.declared.entry.Rule.{Rule};
ghost use Rattle.pssm_semantics.specs.declared.setting.Setting.{Setting};
ghost use Rattle.pssm_semantics.specs.declared.stimulus.Stimulus.{Stimulus};
ghost use Rattle.pssm_load.specs.declared.fault.LoadFault.{LoadFault};
ghost use Rattle.pssm_tool.specs.declared.answer.Answer.{Answer};
ghost use Rattle.pssm_workers.specs.declared.ended.Ended.{Ended};
ghost use Rattle.pssm_tool.specs.declared.run_words.Options.{Options};
ghost use Rattle.pssm_base.specs.Faults.{Rose};
ghost use Rattle.pssm_base.specs.Reading.{given, told};
ghost use Rattle.pssm_base.specs.Putting.{TookPart};
ghost use Rattle.pssm_tool.specs.Words.{texts, Means, Judges, Runs};
ghost use Rattle.pssm_tool.specs.Answers.{text_of, code_of, IsFailure};
ghost use Rattle.pssm_tool.specs.Due.{IsOwed, IsTold, Gives, ReadFailed, IsRunOwed, IsOfRun};
ghost use Rattle.pssm_tool.specs.Headline.{AcceptsPrefixes, IsContinued, IsAcceptedText};
ghost use Rattle.pssm_tool.specs.inner.Failures.{FailedFor, GoesOn};

use crate::answer::Answer;
use crate::commands::{check_model, judge_journal, print_model, run_model};
use crate::failure::Failure;
use crate::generated_run::generate_and_run;
use crate::status::Status;
use crate::words::{Command, command_of};
use pssm_base::{Gate, Inputs, Sink, put_all};
use pssm_load::one_load;
use std::alloc::Global;
use std::sync::Wait;
use std::thread::Threads;

/// Does what the words say, and answers how the program ends (UML 2.5.1, 14.2.3; the words, the
/// texts and the statuses are this profile's choice). `words` are those after the program's name.
///
/// `judge MODEL JOURNAL` judges a journal of a run of the model, and writes one line.
/// `run [--seed N] [--workers W] [--limit L] MODEL STIMULUS*` runs the model and writes the
/// journal; the options may stand anywhere before `--`. `check MODEL` says whether the model is
/// well formed, and `flat MODEL` writes its flat text. `gen N` runs the generated model of a number
/// from 1 to 4000, and writes a line with the counts and the digest of its journal.
///
/// A model is in the flat form, where its bytes begin with `pssm-flat`, and otherwise a model file
/// as an editor writes it. What is written goes to `out` at once, after all else is done; before
/// that nothing is written. `run` starts as many workers as its words ask for, on threads of `rt`;
/// each tells the gate before it runs a behaviour. So `pssm` may wait, and no clause says that it
/// returns; all that it calls for the other commands returns.
pub fn pssm<R: Threads + Wait + Sync, I: Inputs, S: Sink, G: Gate + Sync>(
    rt: &R,
    alloc: Global,
    words: &[String],
    inputs: &mut I,
    out: &mut S,
    gate: &G,
) -> Status
    // ---- What an accepted journal is.

    // The headline: the journal is accepted exactly where its bytes are the text, within the limits, of a prefix of a
    // complete run of the model, unless reading, writing or memory failed. The bytes are those that the paths hold.
    ensures headline { IsTold (texts words.now) (I.content inputs.old)
        → AcceptsPrefixes (texts words.now) (told (I.content inputs.old)) result.code }

    // The headline of the bytes that this call was given, where the calls are kept that were answered, as for the
    // system's files: the model was read first, once and from its start to its end, and then the journal.
    ensures headline_read { IsSome (I.history inputs.old) → AcceptsPrefixes (texts words.now)
        (given (I.content inputs.old) (I.history inputs.old) (I.history inputs.new)) result.code }

    // The journal that was accepted is the beginning of a complete run.
    ensures continued { result.code ≡ 0 → (model journal : List ℕ) → Means (texts words.now) (Judges model journal)
        → IsContinued
        (given (I.content inputs.old) (I.history inputs.old) (I.history inputs.new)) model journal }

    // The journal that a run writes is accepted as one of its model.
    ensures accepts_runs { (options : Options) (model : List ℕ) (stimuli : List (List ℕ))
        → Means (texts words.now) (Runs options model stimuli) → (result.code ≡ 0) ⊎ (result.code ≡ 8)
        → IsAcceptedText (given (I.content inputs.old) (I.history inputs.old) (I.history inputs.new))
        model (S.taken out.old) (S.taken out.new) }

    // ---- What is written is owed: by status, the answer whose text was written whole.

    // 0: the journal is admissible, and `accept N` says how many entries it has; or the journal was written of a run
    // that ended where nothing more can happen; or the model, of either form, keeps the rules of models, and
    // `well formed` or its flat text was written; or the line was written on a run of a generated model that ended
    // where nothing more can happen.
    ensures accepted { result.code ≡ 0
        → ((n : ℕ) × Gives (texts words.now)
        (given (I.content inputs.old) (I.history inputs.old) (I.history inputs.new))
        (S.taken out.old) (S.taken out.new) (Answer.Accept n))
        ⊎ ((text : List ℕ) × Gives (texts words.now)
        (given (I.content inputs.old) (I.history inputs.old) (I.history inputs.new))
        (S.taken out.old) (S.taken out.new) (Answer.Journal text Ended.Quiet))
        ⊎ Gives (texts words.now)
        (given (I.content inputs.old) (I.history inputs.old) (I.history inputs.new))
        (S.taken out.old) (S.taken out.new) Answer.WellFormed
        ⊎ ((text : List ℕ) × Gives (texts words.now)
        (given (I.content inputs.old) (I.history inputs.old) (I.history inputs.new))
        (S.taken out.old) (S.taken out.new) (Answer.Flat text))
        ⊎ ((n entries takes : ℕ) × (digest : List ℕ) × Gives (texts words.now)
        (given (I.content inputs.old) (I.history inputs.old) (I.history inputs.new))
        (S.taken out.old) (S.taken out.new) (Answer.Generated n entries takes digest)) }

    // 1: `refuse N An` names the first entry that breaks a rule, and the first rule that it breaks.
    ensures refused { result.code ≡ 1 → (n : ℕ) × (rule : Rule) × Gives (texts words.now)
        (given (I.content inputs.old) (I.history inputs.old) (I.history inputs.new))
        (S.taken out.old) (S.taken out.new) (Answer.Refuse n rule) }

    // 2: the words mean no command, or name a stimulus that the model does not have.
    ensures usage { result.code ≡ 2 → Gives (texts words.now)
        (given (I.content inputs.old) (I.history inputs.old) (I.history inputs.new))
        (S.taken out.old) (S.taken out.new) Answer.Usage }

    // 3: the model's bytes are no flat text and no model file that is read, or a class cannot be flattened, a body has
    // a fault, a machine has no shape, or rules of models are broken; the lines say which and where.
    ensures bad_model { result.code ≡ 3 → (fault : LoadFault) × Gives (texts words.now)
        (given (I.content inputs.old) (I.history inputs.old) (I.history inputs.new))
        (S.taken out.old) (S.taken out.new) (Answer.BadModel fault) }

    // 4: `journal line L byte B` names the first byte at which the journal's text goes wrong, and
    // `journal line L no end` the line within which it ends; no earlier line breaks a rule.
    ensures bad_journal { result.code ≡ 4
        → ((line : ℕ) × (byte : ℕ) × Gives (texts words.now)
        (given (I.content inputs.old) (I.history inputs.old) (I.history inputs.new))
        (S.taken out.old) (S.taken out.new) (Answer.BadLine line byte))
        ⊎ ((line : ℕ) × Gives (texts words.now)
        (given (I.content inputs.old) (I.history inputs.old) (I.history inputs.new))
        (S.taken out.old) (S.taken out.new) (Answer.NoEnd line)) }

    // 8: `limit N` names the entry by which the journal passes its limits; or the journal was written of a run that
    // ended because it is full.
    ensures limited { result.code ≡ 8
        → ((n : ℕ) × Gives (texts words.now)
        (given (I.content inputs.old) (I.history inputs.old) (I.history inputs.new))
        (S.taken out.old) (S.taken out.new) (Answer.Limit n))
        ⊎ ((text : List ℕ) × Gives (texts words.now)
        (given (I.content inputs.old) (I.history inputs.old) (I.history inputs.new))
        (S.taken out.old) (S.taken out.new) (Answer.Journal text Ended.Limit)) }

    // 9: a file is too large, or a line of the journal is, and no earlier line breaks a rule.
    ensures too_large { result.code ≡ 9 → Gives (texts words.now)
        (given (I.content inputs.old) (I.history inputs.old) (I.history inputs.new))
        (S.taken out.old) (S.taken out.new) Answer.TooLarge }

    // ---- What is owed is written, unless reading, writing or memory failed (5, 6, 7).

    // Where it is told what the files hold, and an answer is owed that is not of a run, its status comes.
    ensures exactly { (answer : Answer) → IsTold (texts words.now) (I.content inputs.old)
        → IsOwed (texts words.now) (told (I.content inputs.old)) answer
        → (result.code ≡ code_of answer) ⊎ IsFailure result.code ⊎ IsOfRun answer }

    // The same where the calls are kept that were answered, of the bytes that this call was given.
    ensures exactly_read { (answer : Answer) → IsSome (I.history inputs.old)
        → IsOwed (texts words.now) (given (I.content inputs.old) (I.history inputs.old) (I.history inputs.new)) answer
        → (result.code ≡ code_of answer) ⊎ IsFailure result.code ⊎ IsOfRun answer }

    // Where a run is owed, what it came to is written, with one of its two ends.
    ensures runs { (setting : Setting) (stimuli : List Stimulus) → IsTold (texts words.now) (I.content inputs.old)
        → IsRunOwed (texts words.now) (told (I.content inputs.old)) setting stimuli
        → (result.code ≡ 0) ⊎ (result.code ≡ 8) ⊎ IsFailure result.code }

    // The same where the calls are kept that were answered, of the bytes that this call was given.
    ensures runs_read { (setting : Setting) (stimuli : List Stimulus) → IsSome (I.history inputs.old)
        → IsRunOwed (texts words.now)
        (given (I.content inputs.old) (I.history inputs.old) (I.history inputs.new)) setting stimuli
        → (result.code ≡ 0) ⊎ (result.code ≡ 8) ⊎ IsFailure result.code }

    // ---- What a failure leaves, and that there is no other status.

    // 5: reading a path that the words name failed in this call. Nothing is written.
    ensures read_fault { result.code ≡ 5 → ReadFailed (texts words.now) (I.faults inputs.old) (I.faults inputs.new) }
    ensures read_fault_silent { result.code ≡ 5 → Keeps (S.taken out.old) (S.taken out.new) }

    // 6: writing failed in this call. A front of the text that was owed was taken.
    ensures write_fault { result.code ≡ 6 → Rose (S.faults out.old) (S.faults out.new) }
    ensures write_fault_part { result.code ≡ 6 → (answer : Answer)
        × IsOwed (texts words.now) (given (I.content inputs.old) (I.history inputs.old) (I.history inputs.new)) answer
        × TookPart (S.taken out.old) (S.taken out.new) (text_of answer) }

    // 7: there was not enough memory. Nothing is written.
    ensures no_memory_silent { result.code ≡ 7 → Keeps (S.taken out.old) (S.taken out.new) }

    // There is no other status.
    ensures no_other { result.code ≤ 9 }
{
    one_load();
    match answer(rt, alloc, words, inputs, gate) {
        Ok(answer) => tell(alloc, answer, out),
        Err(Failure::ReadFault) => Status { code: 5 },
        Err(Failure::NoMemory) => Status { code: 7 },
    }
}

// Writes the text of an answer.
fn tell<S: Sink>(alloc: Global, answer: Answer, out: &mut S) -> Status
    ensures told { result.code ≢ 6 → result.code ≢ 7
        → (result.code ≡ code_of answer) × Appends (S.taken out.old) (S.taken out.new) (text_of answer) }
    ensures write_fault { result.code ≡ 6 → Rose (S.faults out.old) (S.faults out.new)
        × TookPart (S.taken out.old) (S.taken out.new) (text_of answer) }
    ensures no_memory { result.code ≡ 7 → Keeps (S.taken out.old) (S.taken out.new) }
    ensures no_other { result.code ≤ 9 }
    ensures no_read_fault { result.code ≢ 5 }
{
    let status = answer.status();
    match answer.into_text(alloc) {
        Ok(text) => put(text.as_slice(), status, out),
        Err(_) => Status { code: 7 },
    }
}

// Writes the bytes, and answers the status unless writing failed.
fn put<S: Sink>(bytes: &[u8], status: Status, out: &mut S) -> Status
    requires { status.code ≢ 6 }
    ensures told { result.code ≢ 6 → (result ≡ status) × Appends (S.taken out.old) (S.taken out.new) bytes.now }
    ensures write_fault { result.code ≡ 6 → Rose (S.faults out.old) (S.faults out.new)
        × TookPart (S.taken out.old) (S.taken out.new) bytes.now }
{
    match put_all(out, bytes) {
        Ok(()) => status,
        Err(_) => Status { code: 6 },
    }
}

// The answer that is owed for the words and their files, or why there is none.
fn answer<R: Threads + Wait + Sync, I: Inputs, G: Gate + Sync>(
    rt: &R,
    alloc: Global,
    words: &[String],
    inputs: &mut I,
    gate: &G,
) -> Result<Answer, Failure>
    ensures owed { IfOk result (IsOwed (texts words.now)
        (given (I.content inputs.old) (I.history inputs.old) (I.history inputs.new))) }
    ensures goes_on { IfOk result (GoesOn (texts words.now)
        (given (I.content inputs.old) (I.history inputs.old) (I.history inputs.new))) }
    ensures failed { IfErr result (FailedFor (texts words.now) (I.faults inputs.old) (I.faults inputs.new)) }
{
    let command = command_of(alloc, words)?;
    match command {
        Some(Command::Judge { model, journal }) => judge_journal(alloc, inputs, model, journal),
        Some(Command::Run(asked)) => run_model(rt, alloc, inputs, &asked, gate),
        Some(Command::Check { model }) => check_model(alloc, inputs, model),
        Some(Command::Flat { model }) => print_model(alloc, inputs, model),
        Some(Command::Generate { number }) => generate_and_run(alloc, number),
        None => Ok(Answer::Usage),
    }
}
