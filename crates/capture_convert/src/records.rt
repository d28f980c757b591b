// Lines to records (RULES 18.3).
ghost use Rattle.std.specs.Prelude.{◌≡◌, ◌*◌, ◌≤◌, length, MatchOption, MatchResult};
ghost use Rattle.std.proofs.Math.Option.{none};
ghost use Rattle.log_line.specs.Lines.{cut};
ghost use Rattle.capture_record.specs.Record.{record_size};
ghost use Rattle.capture_convert.specs.Log.{frames_of};
ghost use Rattle.capture_convert.specs.inside.Walks.{Walked, Recorded, Broken};

// The lines of a block that have their line feed: how many there are, and where what follows them begins.
#[derive(Drop)]
pub struct Ran {
    pub count: usize,
    pub from: usize,
}

// Internal. Reads a log, and writes nothing: how many lines there are, if all are well formed.
pub fn scan(log: &[u8]) -> Option<usize>
    ensures { MatchOption result (frames_of log.now ≡ none) (Walked log.now) }
{
    let mut count = 0;
    let mut from = 0;
    let mut end = digits::find(log, 0, b'\n');
    // A while: how far it goes on depends on where each line ends.
    while end < log.len() {
        log_line::read::read(&log[from..end + 1])?;
        count += 1;
        from = end + 1;
        end = digits::find(log, from, b'\n');
    }
    if from == log.len() {
        return Some(count);
    }
    None
}

// Internal. The records of a block's lines, at the front of `out`; or how many lines there are before the first that is not well formed.
pub fn records(block: &[u8], out: &mut [u8]) -> Result<Ran, usize>
    requires { record_size * length (cut block.now).whole ≤ length out.old }
    ensures { MatchResult result (λ r. Recorded block.now out.old r out.new) (λ n. Broken block.now n out.new) }
{
    let mut count = 0;
    let mut from = 0;
    let mut end = digits::find(block, 0, b'\n');
    // A while: how far it goes on depends on where each line ends.
    while end < block.len() {
        let Some(l) = log_line::read::read(&block[from..end + 1]) else {
            return Err(count);
        };
        capture_record::put(out, count * capture_record::SIZE, l);
        count += 1;
        from = end + 1;
        end = digits::find(block, from, b'\n');
    }
    Ok(Ran { count, from })
}
