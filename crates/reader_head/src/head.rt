// The head: the counts of everything.
ghost use Rattle.std.specs.Prelude.{◌^◌, ◌<◌};
ghost use Rattle.format.specs.Reads.{Reads};
ghost use Rattle.policy.specs.File.{head_format};
ghost use Rattle.reader_head.specs.Parts.{head_of};

use super::Counts;
use format::file_reader::FileReader;
use refusal::Refusal;

// The head's counts.
pub fn read_counts(reader: &mut FileReader) -> Result<Counts, Refusal>
    requires { reader.old.bits.at < 2 ^ 39 }
    ensures reads { Reads head_format 40 head_of reader.old reader.new result }
{
    let user = reader.field(4, 0, 9, Refusal::Count)? as u8;
    let session = reader.field(4, 0, 9, Refusal::Count)? as u8;
    let item = reader.field(4, 0, 9, Refusal::Count)? as u8;
    let users = reader.field(5, 1, 17, Refusal::Count)? as u8;
    let sessions = reader.field(6, 0, 33, Refusal::Count)? as u8;
    let items = reader.field(6, 0, 33, Refusal::Count)? as u8;
    let permissions = reader.field(4, 1, 9, Refusal::Count)? as u8;
    reader.field(7, 0, 1, Refusal::SpareBits)?;
    Ok(Counts {
        user,
        session,
        item,
        users,
        sessions,
        items,
        permissions,
    })
}
