//! The words of a channel's line.

ghost use Rattle.std.specs.Prelude.{◌≡◌, option_map};
ghost use Rattle.std.specs.List.{list_all};
ghost use Rattle.scan_model.specs.Words.{is_short_name};
ghost use Rattle.text_parts.specs.Views.{nows};
ghost use Rattle.chain_compactor.specs.ChannelText.{channel_of};

use text_parts::is_short_name;

/// The words of a channel's line behind its keyword.
#[derive(Clone, Copy)]
pub struct NamedChannel<'a, 'b> {
    pub name: &'a [u8],
    pub chains: &'b [&'a [u8]],
}

impl<'a, 'b> NamedChannel<'a, 'b> {
    ghost use Rattle.chain_compactor.specs.ChannelReading.{named_view};

    /// The channel of a line's words, where they are of its form.
    pub fn of_words(words: &'b [&'a [u8]]) -> Option<Self>
        ensures { option_map named_view result ≡ channel_of (nows words.now) }
    {
        if words.len() < 3 {
            return None;
        }
        if words[0] != b"CHANNEL".as_slice() {
            return None;
        }
        if !are_short_names(&words[1..]) {
            return None;
        }
        let name = words[1];
        let chains = &words[2..];
        Some(NamedChannel { name, chains })
    }
}

fn are_short_names(words: &[&[u8]]) -> bool
    ensures { result ≡ list_all is_short_name (nows words.now) }
{
    words.iter().all(|w| is_short_name(w))
}
