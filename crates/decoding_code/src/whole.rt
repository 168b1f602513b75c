// Decoding a batch to the log.
ghost use Rattle.std.specs.Prelude.{◌≡◌};
ghost use Rattle.decoding.specs.Logs.{log_length, decoded, decoded_log};

use crate::writing;
use answers::Fault;
use batch::{Lengths, Refusal, Reported};
use prediction::Grid;

// The bytes that the log of a picture needs.
fn log_length(grid: Grid) -> usize
    ensures { result ≡ log_length grid }
{
    24 * (grid.columns as usize * grid.rows as usize)
}

// Decodes a batch with four buffers of these lengths into the log. All is judged before the first record is written.
#[tactic(auto, unfolding(batch::specs::Reports::report, decoding::specs::Logs::decoded, decoding::specs::Logs::decoded_log))]
pub fn decode(words: &[u32], lengths: Lengths, log: &mut [u8]) -> Result<Reported, Refusal>
    ensures { (result ≡ decoded lengths words.now log.old) × (log.new ≡ decoded_log lengths words.now log.old) }
{
    let progress = batch_code::judge_batch(words).map_err(Refusal::Broken)?;
    let reported = batch_code::report_of(progress, lengths)?;
    let needed = log_length(progress.picture.grid);
    if log.len() < needed {
        let fault = Fault {
            number: 14,
            place: needed as u64,
        };
        return Err(Refusal::Short(fault, reported));
    }
    writing::write_records(words, log);
    Ok(reported)
}
