//! The words that a configuration knows by name.

ghost use Rattle.std.specs.Prelude.{◌≡◌};
ghost use Rattle.cfg_parse.specs.Keywords.{section_word, general_setting, listen_setting, application_setting, first_word_of, header_version, timed_wait, is_idle_timeout, timeout_of};

use cfg_expr::is_word;

/// What a first word says of its line.
#[derive(Clone, Copy)]
pub enum FirstWord {
    /// A section begins.
    Begins(SectionWord),
    /// A setting, and where it may stand.
    Sets(Setting, Places),
    Unknown,
}

#[derive(Clone, Copy)]
pub enum SectionWord {
    Global,
    Defaults,
    Listen,
    /// `frontend` and `backend`.
    Other,
}

#[derive(Clone, Copy)]
pub enum Setting {
    Bufsize,
    Maxrewrite,
    Mode,
    Timeout,
    Options,
    Bind,
    Server,
    Acl,
    HttpRequest,
    HttpResponse,
    HttpAfterResponse,
    Filter,
    Docroot,
    Index,
    Script,
    Param,
}

/// The sections in which a setting may stand.
#[derive(Clone, Copy)]
pub enum Places {
    InGlobal,
    /// `defaults` and `listen`.
    InBoth,
    InListen,
}

/// What a `timeout` line speaks of.
#[derive(Clone, Copy)]
pub enum TimeoutName {
    Client,
    Server,
    Connect,
    HttpRequest,
    HttpKeepAlive,
    /// `queue`, `tunnel` and `check`, which have no effect here.
    Idle,
}

/// The words that begin a section.
#[tactic(auto, unfolding(crate::specs::Keywords::section_word))]
fn section_word(word: &[u8]) -> Option<SectionWord>
    ensures { result ≡ section_word word.now }
{
    if is_word(word, b"global") {
        Some(SectionWord::Global)
    } else if is_word(word, b"defaults") {
        Some(SectionWord::Defaults)
    } else if is_word(word, b"listen") {
        Some(SectionWord::Listen)
    } else if is_word(word, b"frontend") || is_word(word, b"backend") {
        Some(SectionWord::Other)
    } else {
        None
    }
}

/// The settings that stand outside of `listen` too, and where.
#[tactic(auto, unfolding(crate::specs::Keywords::general_setting))]
fn general_setting(word: &[u8]) -> Option<(Setting, Places)>
    ensures { result ≡ general_setting word.now }
{
    if is_word(word, b"tune.bufsize") {
        Some((Setting::Bufsize, Places::InGlobal))
    } else if is_word(word, b"tune.maxrewrite") {
        Some((Setting::Maxrewrite, Places::InGlobal))
    } else if is_word(word, b"mode") {
        Some((Setting::Mode, Places::InBoth))
    } else if is_word(word, b"timeout") {
        Some((Setting::Timeout, Places::InBoth))
    } else if is_word(word, b"option") {
        Some((Setting::Options, Places::InBoth))
    } else {
        None
    }
}

/// The settings of `listen` alone.
#[tactic(auto, unfolding(crate::specs::Keywords::listen_setting))]
fn listen_setting(word: &[u8]) -> Option<Setting>
    ensures { result ≡ listen_setting word.now }
{
    if is_word(word, b"bind") {
        Some(Setting::Bind)
    } else if is_word(word, b"server") {
        Some(Setting::Server)
    } else if is_word(word, b"acl") {
        Some(Setting::Acl)
    } else if is_word(word, b"http-request") {
        Some(Setting::HttpRequest)
    } else if is_word(word, b"http-response") {
        Some(Setting::HttpResponse)
    } else if is_word(word, b"http-after-response") {
        Some(Setting::HttpAfterResponse)
    } else if is_word(word, b"filter") {
        Some(Setting::Filter)
    } else {
        None
    }
}

/// Those that say how an application is asked.
#[tactic(auto, unfolding(crate::specs::Keywords::application_setting))]
fn application_setting(word: &[u8]) -> Option<Setting>
    ensures { result ≡ application_setting word.now }
{
    if is_word(word, b"fcgi-docroot") {
        Some(Setting::Docroot)
    } else if is_word(word, b"fcgi-index") {
        Some(Setting::Index)
    } else if is_word(word, b"fcgi-script") {
        Some(Setting::Script)
    } else if is_word(word, b"fcgi-param") {
        Some(Setting::Param)
    } else {
        None
    }
}

/// What a first word says of its line: the table of all settings with their sections.
pub fn first_word_of(word: &[u8]) -> FirstWord
    ensures { result ≡ first_word_of word.now }
{
    if let Some(section) = section_word(word) {
        return FirstWord::Begins(section);
    }
    if let Some((setting, places)) = general_setting(word) {
        return FirstWord::Sets(setting, places);
    }
    if let Some(setting) = listen_setting(word) {
        return FirstWord::Sets(setting, Places::InListen);
    }
    match application_setting(word) {
        Some(setting) => FirstWord::Sets(setting, Places::InListen),
        None => FirstWord::Unknown,
    }
}

/// The options of `server`, each by the version of the header of the PROXY protocol that it asks for.
#[tactic(auto, unfolding(crate::specs::Keywords::header_version))]
pub fn header_version(word: &[u8]) -> Option<u32>
    ensures { result ≡ header_version word.now }
{
    if is_word(word, b"send-proxy") {
        Some(1)
    } else if is_word(word, b"send-proxy-v2") {
        Some(2)
    } else {
        None
    }
}

/// The timeouts that have an effect, by name.
#[tactic(auto, unfolding(crate::specs::Keywords::timed_wait))]
fn timed_wait(word: &[u8]) -> Option<TimeoutName>
    ensures { result ≡ timed_wait word.now }
{
    if is_word(word, b"client") {
        Some(TimeoutName::Client)
    } else if is_word(word, b"server") {
        Some(TimeoutName::Server)
    } else if is_word(word, b"connect") {
        Some(TimeoutName::Connect)
    } else if is_word(word, b"http-request") {
        Some(TimeoutName::HttpRequest)
    } else if is_word(word, b"http-keep-alive") {
        Some(TimeoutName::HttpKeepAlive)
    } else {
        None
    }
}

/// The other timeouts that a line may name.
#[tactic(auto, unfolding(crate::specs::Keywords::is_idle_timeout))]
fn is_idle_timeout(word: &[u8]) -> bool
    ensures { result ≡ is_idle_timeout word.now }
{
    is_word(word, b"queue") || is_word(word, b"tunnel") || is_word(word, b"check")
}

/// The timeout of a name.
pub fn timeout_of(word: &[u8]) -> Option<TimeoutName>
    ensures { result ≡ timeout_of word.now }
{
    match timed_wait(word) {
        Some(name) => Some(name),
        None if is_idle_timeout(word) => Some(TimeoutName::Idle),
        None => None,
    }
}
