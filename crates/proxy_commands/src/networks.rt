//! The nets that the program is handed.
use proxy_sessions::Many;

/// What commands make their calls on.
#[derive(Drop)]
pub struct Networks<N, M, S, W> {
    /// The net of `serve`, which makes calls on nothing else.
    pub serve: N,
    /// What `run` is handed.
    pub run: Many<M, S, W>,
}
