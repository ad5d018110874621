//! The form of the words.
ghost use Rattle.std.specs.Prelude.{◌≡◌, ◌↔◌, ◌∷◌, IsTrue, is_some, option_map};
ghost use Rattle.lmn_app_words.specs.Hearing.{
  are_two_files,
  demo_read,
  file_read,
  hear,
  hear_all,
  hear_dashes,
  hear_file,
  hear_option,
  hear_setting,
  hear_value,
  hear_word,
  heard_of,
  is_file_name,
  nothing_heard,
  pair_asked,
  request_read,
  run_heard,
  run_read,
};
ghost use Rattle.lmn_app_words.specs.Forms.{InForm, texts_of};

use crate::command::PairKind;
use crate::setting::{Flag, Setting, Settings, Valued, demo_number};

/// Whether the words of the command line are of the form. It takes no memory.
pub fn in_form(words: &[String]) -> bool
    ensures { IsTrue result ↔ InForm words.now }
{
    is_form(words)
}

/// Whether words are of the form.
fn is_form(words: &[String]) -> bool
    ensures { result ≡ is_some (request_read (texts_of words.now)) }
{
    match words {
        [] => false,
        [first, rest @ ..] => is_form_of(first.as_str(), rest),
    }
}

/// Whether a first word, and the words behind it, are of the form.
fn is_form_of(first: &str, rest: &[String]) -> bool
    ensures { result ≡ is_some (request_read (first.now ∷ texts_of rest.now)) }
{
    match first {
        "run" => is_run_form(rest),
        "compile" => is_compile_form(rest),
        "demo" => is_demo_form(rest),
        _ => is_pair_form(first, rest),
    }
}

/// Whether the words behind `run` are one file and each option at most once.
fn is_run_form(words: &[String]) -> bool
    ensures { result ≡ is_some (run_read (texts_of words.now)) }
{
    match Reader::new().all(words) {
        Some(reader) => reader.is_whole(),
        None => false,
    }
}

/// Whether the words behind `compile` are one file.
fn is_compile_form(words: &[String]) -> bool
    ensures { result ≡ is_some (file_read (texts_of words.now)) }
{
    match words {
        [file] => is_file_name(file.as_bytes()),
        _ => false,
    }
}

/// Whether the words behind `demo` are one number that it takes.
fn is_demo_form(words: &[String]) -> bool
    ensures { result ≡ is_some (demo_read (texts_of words.now)) }
{
    match words {
        [word] => demo_number(word.as_str()).is_some(),
        _ => false,
    }
}

/// Whether a word names a command with a program and a second text, and the words behind it are two files.
fn is_pair_form(name: &str, words: &[String]) -> bool
    ensures { result ≡ is_some (pair_asked name.now (texts_of words.now)) }
{
    match PairKind::named(name) {
        Some(_) => are_two_files(words),
        None => false,
    }
}

/// Whether words are two files.
fn are_two_files(words: &[String]) -> bool
    ensures { result ≡ are_two_files (texts_of words.now) }
{
    match words {
        [first, last] => is_file_name(first.as_bytes()) && is_file_name(last.as_bytes()),
        _ => false,
    }
}

/// Whether a word can name a file.
fn is_file_name(word: &[u8]) -> bool
    ensures { result ≡ is_file_name word.now }
{
    match word {
        [] => false,
        [first, ..] => *first != b'-',
    }
}

/// What the words behind `run` told so far.
#[derive(Clone, Copy)]
struct Reader<'w> {
    file: Option<&'w str>,
    settings: Settings,
    /// The option that the last word named, whose value is the next one.
    waiting: Option<Valued>,
}

impl<'w> Reader<'w> {
    /// Before the first word.
    fn new() -> Reader<'w>
        ensures { heard_of result ≡ nothing_heard }
    {
        Reader {
            file: None,
            settings: Settings::new(),
            waiting: None,
        }
    }

    /// After one more word; `None` where no words of the form go on so.
    fn next(self, word: &'w str) -> Option<Reader<'w>>
        ensures { option_map heard_of result ≡ hear (heard_of self.entry) word.now }
    {
        match self.waiting {
            Some(option) => self.with_value(option, word),
            None => self.with_word(word),
        }
    }

    /// After some more words: each sets what wasn't set before, so those of the form are a dozen or so.
    fn all(self, words: &'w [String]) -> Option<Reader<'w>>
        ensures { option_map heard_of result ≡ hear_all (heard_of self.entry) (texts_of words.now) }
    {
        match words {
            [] => Some(self),
            [word, rest @ ..] => {
                let next = self.next(word.as_str())?;
                next.all(rest)
            }
        }
    }

    fn with_word(self, word: &'w str) -> Option<Reader<'w>>
        ensures { option_map heard_of result ≡ hear_word (heard_of self.entry) word.now }
    {
        if is_file_name(word.as_bytes()) {
            self.with_file(word)
        } else {
            self.with_dashes(word)
        }
    }

    /// After a word that can't name a file.
    fn with_dashes(self, word: &str) -> Option<Reader<'w>>
        ensures { option_map heard_of result ≡ hear_dashes (heard_of self.entry) word.now }
    {
        match Flag::named(word) {
            Some(flag) => self.with_setting(Setting::Flag(flag)),
            None => self.with_option(word),
        }
    }

    fn with_file(self, file: &'w str) -> Option<Reader<'w>>
        ensures { option_map heard_of result ≡ hear_file (heard_of self.entry) file.now }
    {
        if self.file.is_some() {
            None
        } else {
            Some(Reader {
                file: Some(file),
                ..self
            })
        }
    }

    /// After the name of an option with a value, or after both in one word.
    fn with_option(self, word: &str) -> Option<Reader<'w>>
        ensures { option_map heard_of result ≡ hear_option (heard_of self.entry) word.now }
    {
        match word.split_once('=') {
            Some((name, value)) => self.with_value(Valued::named(name)?, value),
            None => Some(Reader {
                waiting: Some(Valued::named(word)?),
                ..self
            }),
        }
    }

    fn with_value(self, option: Valued, value: &str) -> Option<Reader<'w>>
        ensures { option_map heard_of result ≡ hear_value (heard_of self.entry) option value.now }
    {
        self.with_setting(option.setting(value)?)
    }

    fn with_setting(self, setting: Setting) -> Option<Reader<'w>>
        ensures { option_map heard_of result ≡ hear_setting (heard_of self.entry) setting }
    {
        let settings = self.settings.with(setting)?;
        Some(Reader {
            settings,
            waiting: None,
            ..self
        })
    }

    /// Whether nothing is wanting behind the last word.
    fn is_whole(self) -> bool
        ensures { result ≡ is_some (run_heard (heard_of self.entry)) }
    {
        self.waiting.is_none() && self.file.is_some()
    }
}
