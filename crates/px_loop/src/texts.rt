//! What client and origin send, and what they have to get.

/// The rules of the proxy between them, as lines of its configuration behind those of its addresses.
pub const RULES: &str =
    "  http-request redirect scheme https if { query b }\n  http-request set-header x-a 1\n";

/// What the first client sends, what the origin gets for it, what it sends then, and what the client gets.
pub const REQUEST: &[u8] = b"GET /a HTTP/1.1\r\nHost: h\r\n\r\n";

pub const FORWARDED: &[u8] = b"GET /a HTTP/1.1\r\nhost: h\r\nx-a: 1\r\nconnection: close\r\n\r\n";

pub const RESPONSE: &[u8] = b"HTTP/1.1 200 OK\r\nContent-Length: 2\r\n\r\nok";

pub const ANSWER: &[u8] = b"HTTP/1.1 200 OK\r\ncontent-length: 2\r\n\r\nok";

/// What the second client sends, and what it gets.
pub const REDIRECTED: &[u8] = b"GET /a?b HTTP/1.1\r\nHost: h\r\n\r\n";

pub const REDIRECT: &[u8] =
    b"HTTP/1.1 302 Found\r\ncontent-length: 0\r\nlocation: https://h/a?b\r\n\r\n";
