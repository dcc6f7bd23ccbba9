// The steps of a run by kept words.
ghost use Rattle.std.specs.Prelude.{◌≡◌, ◌≤◌, ◌<◌, replicate};
ghost use Rattle.reading.specs.declared.form.Form.{Form};
ghost use Rattle.engine.specs.Engine.{Leads};

use entries::tags::{Tags, no_tags, set_of, tag_of, way_of};
use insn::profile::Profile;
use machine::state::State;
use marked::mark::unmark;
use perform::perform::carry_out;
use reading::form::Form;
use reading::reading::{Reading, reading_at};
use ready::lines::readied;
use run::run::event_at;
use word::sum::plus;

// How far a run has come: its state, its steps, and whether one of them reached past memory.
#[derive(Clone, Copy)]
pub struct Stretch {
    pub state: State,
    pub steps: u32,
    pub past: bool,
}

// How far the words are kept: to the end of this step if too many of them were not found in so many steps.
fn kept_upto(missed: u32, i: u32, upto: u32) -> u32
    requires { i < upto }
    ensures { result ≤ upto }
{
    if missed > i / 16 + 256 { i + 1 } else { upto }
}

// The way that a new entry takes: the first empty one, or else each in turn.
fn new_way(tags: &Tags, set: usize, missed: u32) -> usize
    requires { set < 64 }
    ensures { result < 4 }
{
    way_of(tags, set, 0).unwrap_or((missed % 4) as usize)
}

fn no_readings() -> [[Reading; 4]; 64]
    ensures { result ≡ replicate 64 (replicate 4 (record { word = 0; form = Form.Unaligned })) }
{
    [[Reading {
        word: 0,
        form: Form::Unaligned,
    }; 4]; 64]
}

// Steps by kept words, until one halts or reaches past memory, the budget is used, or too many words were not found. run::inside says
// why the start's halt code has a clause and no type. The scope binds two arrays, of tags and of readings (docs/DECISIONS.md, Named forms).
pub fn kept_stretch(
    profile: Profile,
    start: State,
    mem: &mut [u8],
    events: &[u8],
    budget: u32,
) -> Stretch
    requires { start.halt ≤ 5 }
    ensures { Leads profile budget events.now start mem.old result mem.new }
{
    // tags and kept words are two arrays, as the scope names them: a search reads tags alone
    let mut tags = no_tags();
    let mut kept = no_readings();
    let mut s = start;
    let mut i = 0;
    let mut upto = budget;
    let mut missed = 0;
    while i < upto && s.halt == 0 {
        let ready = readied(profile, s, event_at(events, i));
        let t = ready.state;
        if !ready.runs {
            s = t;
            i += 1;
            continue;
        }
        let at = t.iar;
        let set = set_of(at);
        let tag = tag_of(at);
        let way = match way_of(&tags, set, tag) {
            Some(way) => way,
            None => {
                let way = new_way(&tags, set, missed);
                kept[set][way] = reading_at(profile, &mem[..], at);
                tags[set][way] = tag;
                missed = plus(missed, 1);
                upto = kept_upto(missed, i, upto);
                way
            }
        };
        s = carry_out(profile, t, mem, &mut tags, kept[set][way]);
        i += 1;
    }
    let past = s.halt >= 8;
    if past {
        s = unmark(s);
    }
    Stretch {
        state: s,
        steps: i,
        past,
    }
}
