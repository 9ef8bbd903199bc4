// A kit's bytes as words.
#![tactic(auto)]

ghost use Rattle.std.specs.Prelude.{◌≡◌};
ghost use Rattle.kit_bytes.specs.KitBytes.{whole_words, words_of, overlaid};

// Whether so many bytes are a kit's size.
pub fn whole_words(bytes: usize) -> bool
    ensures { result ≡ whole_words bytes }
{
    bytes <= 65536 && bytes % 4 == 0
}

// The bytes' words at the front of the output, as many as there are and have room.
pub fn read_words(bytes: &[u8], out: &mut [u32])
    ensures { out.new ≡ overlaid (words_of bytes.now) out.old }
{
    let (words, _) = bytes.as_chunks::<4>();
    for i in 0..words.len().min(out.len()) {
        out[i] = u32::from_be_bytes(words[i]);
    }
}
