//! What rules come to: `pass` and the edited list, `reply` and the reply's list, `deny` and the code, or `fail` and why.
use case_rows::Answers;
use case_rows::array::say_blocks;
use http_rules::Verdict;
use htx_arena::Arena;

/// Says a verdict, and the list that it leaves to be sent.
pub fn say_verdict(verdict: Verdict, msg: &Arena, reply: &Arena, answers: &mut Answers) {
    match verdict {
        Verdict::Pass => {
            answers.say(b"pass");
            say_blocks(msg, answers);
        }
        Verdict::Reply => {
            answers.say(b"reply");
            say_blocks(reply, answers);
        }
        Verdict::Deny(code) => {
            answers.say(b"deny ");
            answers.more_count(u64::from(code));
        }
        Verdict::Fail(why) => {
            answers.say(b"fail ");
            answers.more_name(&why);
        }
    }
}
