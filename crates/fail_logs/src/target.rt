//! The target of a line: what it names, looked up in the frame.

ghost use Rattle.std.specs.Prelude.{◌≡◌, ◌≤◌, length, slice_index};
ghost use Rattle.fail_logs.specs.LogViews.{line_view};
ghost use Rattle.fail_logs.specs.Frames.{frame_view, places_view, IsSmall};
ghost use Rattle.fail_logs.specs.BitNumbers.{place_in};

use crate::frame::Frame;
use crate::line::LogLine;
use crate::number::is_number;
use scan_model::CutGroup;
use text_parts::number_of;

/// The length of the chain at a place.
pub fn length_at(frame: &Frame<'_>, chain: usize) -> usize
    ensures { result ≡ slice_index frame.now.lengths.items chain }
{
    match frame.lengths.get(chain) {
        Some(n) => *n,
        None => 0,
    }
}

/// The point of the cell at a position of the chain at a place.
pub fn point_at(frame: &Frame<'_>, chain: usize, pos: u32) -> u32
    ensures { result ≡ place_in (places_view frame.now) chain pos }
{
    match frame.places.get(chain) {
        Some(row) => match row.get(pos as usize) {
            Some(point) => *point,
            None => 0,
        },
        None => 0,
    }
}

/// What a line names, with each word read and looked up once: its pattern, its point, the group that it cuts, whether a word
/// is no number where a number must stand, and whether a fail line's output or cell, or a cut line's chain, is nowhere.
#[derive(Clone, Copy)]
pub struct LineTarget {
    pub pattern: Option<u32>,
    pub point: u32,
    pub cut: Option<CutGroup>,
    pub numberless: bool,
    pub nowhere: bool,
}

impl LineTarget {
    ghost use Rattle.scan_model.specs.LogText.{out_line, cell_line, cut_chain_line};
    ghost use Rattle.fail_logs.specs.LineTargets.{IsTarget};

    // What a fail line of an output names.
    fn of_output(frame: &Frame<'_>, pattern: &[u8], name: &[u8]) -> Self
        requires { length frame.now.outputs ≤ 131072 }
        ensures { IsTarget (frame_view frame.now) (places_view frame.now) (out_line pattern.now name.now) result }
    {
        let pattern = number_of(pattern);
        let place = frame.outputs.place(name);
        LineTarget {
            pattern,
            point: place.unwrap_or(frame.outputs.len()) as u32,
            cut: None,
            numberless: pattern.is_none(),
            nowhere: place.is_none(),
        }
    }

    // What a fail line of a cell names.
    fn of_cell(frame: &Frame<'_>, pattern: &[u8], chain: &[u8], position: &[u8]) -> Self
        ensures { IsTarget (frame_view frame.now) (places_view frame.now) (cell_line pattern.now chain.now position.now) result }
    {
        let pattern = number_of(pattern);
        let position = number_of(position);
        let chain = frame.chains.place_or_len(chain);
        let pos = position.unwrap_or(0);
        LineTarget {
            pattern,
            point: point_at(frame, chain, pos),
            cut: None,
            numberless: !(pattern.is_some() && position.is_some()),
            nowhere: !((pos as usize) < length_at(frame, chain)),
        }
    }

    // What a line that cuts a chain names.
    fn of_cut(frame: &Frame<'_>, chain: &[u8]) -> Self
        requires { length frame.now.chains ≤ 256 }
        ensures { IsTarget (frame_view frame.now) (places_view frame.now) (cut_chain_line chain.now) result }
    {
        let place = frame.chains.place(chain);
        let chain = place.unwrap_or(frame.chains.len()) as u32;
        LineTarget {
            pattern: None,
            point: 0,
            cut: Some(CutGroup::Chain(chain)),
            numberless: false,
            nowhere: place.is_none(),
        }
    }

    /// What a line names.
    pub fn of_line(frame: &Frame<'_>, line: LogLine<'_>) -> Self
        requires { IsSmall frame.now }
        ensures { IsTarget (frame_view frame.now) (places_view frame.now) (line_view line.entry) result }
    {
        match line {
            LogLine::Out(p, name) => LineTarget::of_output(frame, p, name),
            LogLine::Cell(p, chain, pos) => LineTarget::of_cell(frame, p, chain, pos),
            LogLine::Tested(a, b) => LineTarget {
                pattern: None,
                point: 0,
                cut: None,
                numberless: !(is_number(a) && is_number(b)),
                nowhere: false,
            },
            LogLine::CutOutputs => LineTarget {
                pattern: None,
                point: 0,
                cut: Some(CutGroup::Outputs),
                numberless: false,
                nowhere: false,
            },
            LogLine::CutChain(chain) => LineTarget::of_cut(frame, chain),
            _ => LineTarget {
                pattern: None,
                point: 0,
                cut: None,
                numberless: false,
                nowhere: false,
            },
        }
    }
}
