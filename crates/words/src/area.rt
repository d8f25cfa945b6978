// The result area: 4 bytes at 4 times a node's id, big-endian.
ghost use Rattle.std.specs.Prelude.{◌≡◌, ◌+◌, ◌*◌, ◌≤◌, length};
ghost use Rattle.words.specs.Words.{put_word};

pub fn write_word(area: &mut [u8], id: u32, word: u32)
    requires { 4 * id + 4 ≤ length area.old }
    ensures { area.new ≡ put_word area.old id word }
{
    let i = 4 * (id as usize);
    area[i] = (word / 16777216 % 256) as u8;
    area[i + 1] = (word / 65536 % 256) as u8;
    area[i + 2] = (word / 256 % 256) as u8;
    area[i + 3] = (word % 256) as u8;
}
