//! Links and nets that ask a FastCGI application over links and nets below: what is written is a request, which goes on as records, and what is read is the HTTP
//! stream that the application's records are.
#![tactic(auto)]

mod answers;
mod app_link;
mod app_net;
mod app_wakes;
mod asks;
mod asks_application;
mod boxed_exchange;
mod exchange;
mod note;
mod reading;
mod responder;

pub use app_link::AppLink;
pub use app_net::AppNet;
pub use app_wakes::AppWakes;
pub use asks_application::AsksApplication;
pub use note::Note;
pub use px_link::Application;
