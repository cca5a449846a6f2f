//! What each kind of a refusal means, and what stands there instead.
ghost use Rattle.std.specs.Prelude.{◌≡◌};
ghost use Rattle.cfg_parse.specs.Meanings.{meaning_of};

use crate::fault::CfgKind;

/// A sentence or two on what is wrong where a line is refused with this kind, and on what stands there instead, in ASCII and in one line.
#[tactic(auto, unfolding(crate::specs::Meanings::word_meaning, crate::specs::Meanings::section_meaning, crate::specs::Meanings::keyword_meaning, crate::specs::Meanings::argument_meaning, crate::specs::Meanings::expr_meaning, crate::specs::Meanings::acl_meaning, crate::specs::Meanings::pattern_meaning, crate::specs::Meanings::framing_name_meaning, crate::specs::Meanings::limit_meaning, crate::specs::Meanings::missing_meaning, crate::specs::Meanings::mode_meaning))]
pub fn meaning_of(kind: CfgKind) -> &'static str
    ensures { result.now ≡ meaning_of kind }
{
    match kind {
        CfgKind::Word =>
            "A word is malformed. Quotes are closed, \\x has two hexadecimal digits behind it, $ in double quotes is \\$, no backslash ends the line, and there is no NUL.",
        CfgKind::Section =>
            "No such section begins here, or none has begun. A file has global, defaults and one listen NAME, and each other line stands in one of them.",
        CfgKind::Keyword =>
            "The section has no such setting, or the list no such action or filter. One that it has stands here.",
        CfgKind::Argument =>
            "An argument is missing, malformed or one too many, a line stands twice that stands once, or http-request allow stands beside fcgi-param. What the line takes stands here, and nothing behind it.",
        CfgKind::Expr =>
            "An expression or a format is malformed, or the list has no such fetch. A fetch of the list, with converters behind commas, stands here; a format holds it in %[ and ].",
        CfgKind::Acl =>
            "A condition or a test is malformed, or names nothing. Behind if or unless stand names of acl lines above, predefined ones, or tests in braces.",
        CfgKind::Pattern =>
            "The pattern cannot be built. A regular expression in UTF-8 that is well-formed and not too large stands here.",
        CfgKind::FramingName =>
            "The field frames a message or speaks of its connection, and no rule makes it. The name of another field stands here.",
        CfgKind::Limit =>
            "A number, a length or a count is beyond its limit. A smaller one stands here, or fewer lines; tune.maxrewrite is at most tune.bufsize less 512.",
        CfgKind::Missing =>
            "The file has no listen, bind or server, or a line lacks for proto fcgi. It has one listen NAME, with bind HOST:PORT and server NAME HOST:PORT in it; fcgi-docroot DIR stands beside proto fcgi, and proto fcgi beside fcgi-index, fcgi-script and fcgi-param.",
        CfgKind::Mode =>
            "The command does not take a configuration with this option. server NAME HOST:PORT stands without proto fcgi; for explain and weave, bind HOST:PORT without accept-proxy; for weave, server NAME HOST:PORT without send-proxy or send-proxy-v2.",
    }
}
