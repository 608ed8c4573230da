// The answer with the owners of a market's places, made in room that was reserved beforehand.
ghost use Rattle.std.specs.Prelude.{◌≤◌, vec_capacity};

use super::Reply;
use market::standing::Standing;
use market_reader::record::Market;

mod answer;

/// Room for any answer and for any market, the last answer, and the last market that was read.
#[derive(Drop)]
pub struct OwnersReply {
    reply: Reply,
    market: Market,
    row: Vec<Standing>,
    ghost agents: { 200 ≤ vec_capacity row },
}
