//! The array that a core lends: NAME, the size of buffers, lines of `acl` and of rules, what the client gives, how many bytes of the array are asked for, and
//! these, or that no server is to be opened.
ghost use Rattle.http_rules.specs.Valid.{IsValid};
ghost use Rattle.session_core.specs.Place.{IsPlaced};
ghost use Rattle.forward_core.specs.Joined.Joined.{Placed, answer_of};

use crate::runs::configs::config_of;
use case_rows::{Answers, Fault, Row, count_of, decoded};
use forward_core::joined::Directions;
use http_rules::{Config, OutOfMemory};
use session_core::Core;
use session_core::laws::wants_mean;
use std::alloc::Global;

/// The size of the least output windows.
const WINDOW: u32 = 64;

/// Gives a core what the client sends, has it work, and says so many bytes of the array that it lends where a server is to be opened.
fn say_lent(
    core: &mut Core<Directions<'_>>,
    client: &[u8],
    len: usize,
    answers: &mut Answers,
) -> Result<(), OutOfMemory>
    requires placed { IsPlaced (Placed core.old.sides) (answer_of core.old.sides) core.old.at.phase core.old.at.cut }
{
    wants_mean();
    if core.wants().client_read {
        if client.len() <= core.client_room() {
            core.from_client(client);
        }
    }
    core.work()?;
    if core.wants().server_open {
        answers.some_quote(core.request_raw().get(..len));
    } else {
        answers.say(b"none");
    }
    Ok(())
}

/// The same of a new core with the least output windows.
fn say_of_new(
    alloc: Global,
    config: &Config,
    client: &[u8],
    len: usize,
    answers: &mut Answers,
) -> Result<(), OutOfMemory>
    requires valid { IsValid config.now }
{
    let mut core = Core::new(Directions::new(alloc, config, WINDOW)?);
    let said = say_lent(&mut core, client, len, answers);
    drop(core);
    said
}

/// What a row of lent arrays comes to.
pub fn of_lent(alloc: Global, row: Row<'_>) -> Result<Vec<u8>, Fault> {
    let client = decoded(alloc, row.field(3).as_bytes())?;
    let len = count_of(row.field(4).as_bytes())?;
    let mut answers = Answers::new(alloc);
    let config = config_of(alloc, row.field(1), row.field(2))?;
    let said = say_of_new(alloc, &config, &client, len, &mut answers);
    drop(config);
    said?;
    answers.into_text()
}
