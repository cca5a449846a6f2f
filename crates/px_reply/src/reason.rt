//! Reasons of status codes.
ghost use Rattle.std.specs.Prelude.{◌≡◌, ◌≤◌, length};
ghost use Rattle.http_model.specs.Refusal.{reason_of};

/// The reason of a status code (RFC 9110 section 15); `Other` for a code that the table lacks.
#[tactic(auto, unfolding(http_model::specs::Refusal::reason_of))]
pub fn reason_of(code: u16) -> &'static [u8]
    ensures reason { result.now ≡ reason_of code }
    ensures short { length result.now ≤ 21 }
{
    match code {
        200 => b"OK",
        201 => b"Created",
        202 => b"Accepted",
        204 => b"No Content",
        301 => b"Moved Permanently",
        302 => b"Found",
        303 => b"See Other",
        304 => b"Not Modified",
        307 => b"Temporary Redirect",
        308 => b"Permanent Redirect",
        400 => b"Bad Request",
        401 => b"Unauthorized",
        403 => b"Forbidden",
        404 => b"Not Found",
        405 => b"Method Not Allowed",
        408 => b"Request Timeout",
        410 => b"Gone",
        413 => b"Payload Too Large",
        429 => b"Too Many Requests",
        500 => b"Internal Server Error",
        501 => b"Not Implemented",
        502 => b"Bad Gateway",
        503 => b"Service Unavailable",
        504 => b"Gateway Timeout",
        _ => b"Other",
    }
}
