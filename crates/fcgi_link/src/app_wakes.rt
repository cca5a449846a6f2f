//! A wait for events of a net whose connected links ask an application.

use crate::app_link::{AppLink, watch_client, watch_server};
use crate::app_net::AppNet;
use px_link::{Fault, Net, OutOfMemory, Wake, Wakes};

/// Waits for events of the net below and its links.
#[derive(Drop)]
pub struct AppWakes<W> {
    inner: W,
}

impl<W> AppWakes<W> {
    /// What this wait tells of a net it tells of one that stands on it.
    pub fn new(inner: W) -> AppWakes<W> {
        AppWakes { inner }
    }
}

impl<N: Net, W: Wakes<N>> Wakes<AppNet<N>> for AppWakes<W> {
    fn watch_listener(&mut self, net: &mut AppNet<N>) {
        net.watch_listener(&mut self.inner);
    }

    fn leave_listener(&mut self, net: &mut AppNet<N>) {
        net.leave_listener(&mut self.inner);
    }

    fn watch_client(&mut self, place: usize, link: &mut AppLink<N::Link>) {
        watch_client(&mut self.inner, place, link);
    }

    fn watch_server(&mut self, place: usize, link: &mut AppLink<N::Link>) {
        watch_server(&mut self.inner, place, link);
    }

    fn watch_connect(&mut self, place: usize, net: &mut AppNet<N>) {
        net.watch_connect(&mut self.inner, place);
    }

    fn wait(&mut self, at_most: Option<u64>) -> Result<(), Fault> {
        self.inner.wait(at_most)
    }

    fn woken(&mut self, into: &mut Vec<Wake>) -> Result<(), OutOfMemory> {
        self.inner.woken(into)
    }

    fn now(&mut self) -> u64 {
        self.inner.now()
    }
}
