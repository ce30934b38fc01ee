//! Stimuli among the words.
ghost use Rattle.std.specs.Prelude.{◌≡◌, ◌↔◌, [], slice_get, IfOk, OnOk, IfSome, IfNone, IsTrue, List, ℕ};
ghost use Rattle.std.specs.List.{AllByRecursion};
ghost use Rattle.pssm_semantics.specs.declared.stimulus.Stimulus.{Stimulus};
ghost use Rattle.pssm_semantics.specs.Pool.{posts_of_entry};
ghost use Rattle.pssm_tool.specs.Words.{IsStimulusText};
ghost use Rattle.pssm_tool.specs.inner.Commands.{lent};
ghost use Rattle.pssm_tool.specs.Stimuli.{Names, AreStimuli};
ghost use Rattle.pssm_tool.specs.inner.Calls.{post_text as post_text_of, IsPost, ShowsCall};
ghost use Rattle.pssm_tool.specs.inner.Running.{NameNoStimuli};

use pssm_journal::{Front, LineParts, Namespace, entry_of_parts, front_of};
use pssm_semantics::{Entry, Setting, Stimulus};
use std::alloc::{AllocError as NoMemory, Global};

/// Whether each word is spelled as a stimulus, `OBJ.SIG(1,-2)`.
pub fn are_spelled(alloc: Global, words: &[&str]) -> Result<bool, NoMemory>
    ensures { IfOk result (λ yes. IsTrue yes ↔ AllByRecursion IsStimulusText (lent words.now)) }
{
    let mut text = Vec::new(alloc);
    for word in words {
        if !is_spelled(alloc, &mut text, word.as_bytes())? {
            return Ok(false);
        }
    }
    Ok(true)
}

// Whether a word is spelled as a stimulus. The text is room for the line that posts it.
fn is_spelled(alloc: Global, text: &mut Vec<u8>, word: &[u8]) -> Result<bool, NoMemory>
    ensures { IfOk result (λ yes. IsTrue yes ↔ IsStimulusText word.now) }
{
    post_text(text, word)?;
    let call = call_at(alloc, text.as_slice())?;
    Ok(call.is_some())
}

/// The stimuli that the words name in the setting, where each names one.
pub fn stimuli_of(
    alloc: Global,
    setting: &Setting,
    words: &[&str],
) -> Result<Option<Vec<Stimulus>>, NoMemory>
    ensures name { IfOk result (λ o. IfSome o (λ v. AreStimuli setting.now (lent words.now) v.items)) }
    ensures none { IfOk result (λ o. IfNone o (NameNoStimuli setting.now (lent words.now))) }
{
    let namespace = Namespace::new(alloc, setting)?;
    let stimuli = all_named(alloc, setting, &namespace, words);
    // (a call: a drop at the end of the body would be one for each way out)
    drop(namespace);
    stimuli
}

// The same, where this is the setting's namespace.
fn all_named(
    alloc: Global,
    setting: &Setting,
    namespace: &Namespace,
    words: &[&str],
) -> Result<Option<Vec<Stimulus>>, NoMemory>
    requires { namespace.now ≡ setting.now }
    ensures name { IfOk result (λ o. IfSome o (λ v. AreStimuli setting.now (lent words.now) v.items)) }
    ensures none { IfOk result (λ o. IfNone o (NameNoStimuli setting.now (lent words.now))) }
{
    let mut stimuli = Vec::new(alloc);
    let mut text = Vec::new(alloc);
    for word in words {
        match stimulus_of(alloc, setting, namespace, &mut text, word.as_bytes())? {
            Some(stimulus) => stimuli.push(stimulus)?,
            None => return Ok(None),
        }
    }
    Ok(Some(stimuli))
}

// The stimulus that a word names. The text is room for the line that posts it.
fn stimulus_of(
    alloc: Global,
    setting: &Setting,
    namespace: &Namespace,
    text: &mut Vec<u8>,
    word: &[u8],
) -> Result<Option<Stimulus>, NoMemory>
    requires { namespace.now ≡ setting.now }
    ensures names { IfOk result (λ o. IfSome o (Names setting.now word.now)) }
    ensures none { IfOk result (λ o. IfNone o ((x : Stimulus) → Names setting.now word.now x → ⊥)) }
{
    post_text(text, word)?;
    stimulus_at(alloc, setting, namespace, text.as_slice())
}

// The stimulus that a word names, from the text of the line that posts it.
fn stimulus_at(
    alloc: Global,
    setting: &Setting,
    namespace: &Namespace,
    text: &[u8],
) -> Result<Option<Stimulus>, NoMemory>
    requires { namespace.now ≡ setting.now }
    ensures names { IfOk result (λ o. (word : List ℕ) → text.now ≡ post_text_of word
        → IfSome o (Names setting.now word)) }
    ensures none { IfOk result (λ o. (word : List ℕ) → text.now ≡ post_text_of word
        → IfNone o ((x : Stimulus) → Names setting.now word x → ⊥)) }
{
    let Some(parts) = call_at(alloc, text)? else {
        return Ok(None);
    };
    match entry_of_parts(alloc, setting, namespace, parts)? {
        Some(entry) => Ok(posted(entry)),
        None => Ok(None),
    }
}

// The stimulus that an entry posts.
fn posted(entry: Entry) -> Option<Stimulus>
    ensures { result ≡ slice_get (posts_of_entry entry) 0 }
{
    match entry {
        Entry::Post {
            object,
            signal,
            args,
        } => Some(Stimulus {
            object,
            signal,
            args,
        }),
        other => {
            drop(other);
            None
        }
    }
}

// Makes a text that of the line of a journal that has the word after `post`, with its line feed.
fn post_text(text: &mut Vec<u8>, word: &[u8]) -> Result<(), NoMemory>
    ensures { OnOk result (text.new.items ≡ post_text_of word.now) }
{
    text.clear();
    text.extend_from_slice(b"post ")?;
    text.extend_from_slice(word)?;
    text.push(b'\n')?;
    Ok(())
}

// The parts of the line that this is the text of, where the word in it is spelled as a stimulus.
fn call_at(alloc: Global, text: &[u8]) -> Result<Option<LineParts<'_>>, NoMemory>
    ensures call { IfOk result (λ o. (word : List ℕ) → text.now ≡ post_text_of word → IfSome o (ShowsCall word)) }
    ensures none { IfOk result (λ o. (word : List ℕ) → text.now ≡ post_text_of word
        → IfNone o (IsStimulusText word → ⊥)) }
{
    match front_of(alloc, true, 1, text)? {
        Front::Line { parts, rest } => Ok(only_post(parts, rest)),
        Front::Header { .. } | Front::Open | Front::Fault(_) => Ok(None),
    }
}

// The parts, where they are those of a post and nothing follows it.
fn only_post<'a>(parts: LineParts<'a>, rest: &[u8]) -> Option<LineParts<'a>>
    ensures some { IfSome result (λ kept. (kept ≡ parts.entry) × (rest.now ≡ []) × IsPost parts.entry) }
    ensures none { IfNone result (rest.now ≡ [] → IsPost parts.entry → ⊥) }
{
    if rest.is_empty() && is_post(&parts) {
        Some(parts)
    } else {
        None
    }
}

// Whether the parts are those of a post.
fn is_post(parts: &LineParts<'_>) -> bool
    ensures { IsTrue result ↔ IsPost parts.now }
{
    matches!(parts, LineParts::Post { .. })
}
