// Line 2 of a step, the event byte applied to DEC, TSR and ISR[EP], and line 3, the watchdog's action.
ghost use Rattle.std.specs.Prelude.{◌≡◌, ◌≤◌, false, not, ◌&&◌, ◌||◌, eqb};
ghost use Rattle.word.specs.Bits.{bit_at};
ghost use Rattle.machine.specs.Timer.{timer_in, counts_in, dec_after, rises, watchdog_event, tsr_after, pending_of, event_noted, ticked_of, acts_of, acted_of};

use crate::interrupt::{Halt, asked};
use crate::state::{Reg, State};
use word::bits::{Bit, bit_at, bits_at, digit_of, field_at};
use word::rotate::put_at;
use word::shift::select;
use word::sum::plus;

// Timer input k of an event byte.
fn timer_in(event: u8, k: u32) -> bool
    requires { k ≤ 3 }
    ensures { result ≡ timer_in event k }
{
    bit_at(event as u32, Bit((29 - k) as u8))
}

fn watchdog_event(tcr: u32, event: u8) -> bool
    ensures { result ≡ watchdog_event tcr event }
{
    timer_in(event, bits_at(tcr, Bit(0), Bit(1)))
}

// Whether DEC counts, by TCR[DS].
fn counts_in(tcr: u32, event: u8) -> bool
    ensures { result ≡ counts_in tcr event }
{
    let always = !bit_at(tcr, Bit(9)) | bit_at(event as u32, Bit(30));
    let timer = timer_in(event, select(bit_at(tcr, Bit(9)), 3, 1));
    if bit_at(tcr, Bit(10)) { timer } else { always }
}

#[tactic(auto, unfolding(crate::specs::Timer::dec_after))]
fn dec_after(dec: u32, tcr: u32, event: u8) -> u32
    ensures { result ≡ dec_after dec tcr event }
{
    select(counts_in(tcr, event), plus(dec, 0xFFFF_FFFF), dec)
}

// Whether bit 0 goes from 0 to 1.
pub fn bit_rises(before: u32, after: u32) -> bool
    ensures { result ≡ rises before after }
{
    !bit_at(before, Bit(0)) & bit_at(after, Bit(0))
}

#[tactic(auto, unfolding(crate::specs::Timer::tsr_after))]
fn tsr_after(tsr: u32, tcr: u32, event: u8, dis: bool) -> u32
    ensures { result ≡ tsr_after tsr tcr event dis }
{
    let watchdog = watchdog_event(tcr, event);
    let enw = field_at(Bit(0), Bit(0), digit_of(watchdog));
    let wis = field_at(Bit(1), Bit(1), digit_of(watchdog & bit_at(tsr, Bit(0))));
    let fit = timer_in(event, bits_at(tcr, Bit(6), Bit(7)));
    let set_dis = field_at(Bit(4), Bit(4), digit_of(dis));
    let fis = field_at(Bit(5), Bit(5), digit_of(fit));
    tsr | (enw + wis + set_dis + fis)
}

// Whether an event that MSR[EE] masks is pending.
#[tactic(auto, unfolding(crate::specs::Timer::pending_of))]
fn event_pending(tsr: u32, tcr: u32, event: u8) -> bool
    ensures { result ≡ pending_of tsr tcr event }
{
    bit_at(event as u32, Bit(31))
        | bit_at(tcr, Bit(5)) & bit_at(tsr, Bit(4))
        | bit_at(tcr, Bit(8)) & bit_at(tsr, Bit(5))
        | bit_at(tcr, Bit(4)) & bit_at(tsr, Bit(1))
}

// A quiet step, as most are: no event, and none of TCR[WIE], TCR[DIE], TCR[FIE] and TCR[DS]. DEC counts, and nothing can be pending.
pub fn quiet(tcr: u32, event: u8) -> bool
    ensures { result ≡ (eqb event 0 && not (bit_at tcr 4 || bit_at tcr 5 || bit_at tcr 8 || bit_at tcr 9 || bit_at tcr 10)) }
{
    (event == 0)
        & !(bit_at(tcr, Bit(4))
            | bit_at(tcr, Bit(5))
            | bit_at(tcr, Bit(8))
            | bit_at(tcr, Bit(9))
            | bit_at(tcr, Bit(10)))
}

impl State {
    // ISR[EP].
    #[tactic(auto, unfolding(crate::specs::Timer::event_noted))]
    fn note_event(self, event: u8) -> State
        ensures { result ≡ event_noted self event }
    {
        let ep = digit_of(event_pending(self.tsr, self.tcr, event));
        let isr = put_at(self.isr, Bit(21), Bit(21), ep);
        self.set(Reg::Isr, isr)
    }

    // The event byte applied in a quiet step: DEC counts, DIS is set where its bit 0 rises, and EP is cleared.
    fn count(self) -> State
        requires { (bit_at self.tcr 4 || bit_at self.tcr 5 || bit_at self.tcr 8 || bit_at self.tcr 9 || bit_at self.tcr 10) ≡ false }
        ensures { result ≡ ticked_of self 0 }
    {
        let dec = plus(self.dec, 0xFFFF_FFFF);
        let dis = field_at(Bit(4), Bit(4), digit_of(bit_rises(self.dec, dec)));
        let tsr = self.tsr | dis;
        let isr = put_at(self.isr, Bit(21), Bit(21), 0);
        self.set(Reg::Dec, dec)
            .set(Reg::Tsr, tsr)
            .set(Reg::Isr, isr)
    }

    // The event byte applied in any step.
    #[tactic(auto, unfolding(crate::specs::Timer::ticked_of))]
    fn apply(self, event: u8) -> State
        ensures { result ≡ ticked_of self event }
    {
        let dec = dec_after(self.dec, self.tcr, event);
        let tsr = tsr_after(self.tsr, self.tcr, event, bit_rises(self.dec, dec));
        self.set(Reg::Dec, dec).set(Reg::Tsr, tsr).note_event(event)
    }

    // The event byte applied.
    pub fn tick(self, event: u8) -> State
        ensures { result ≡ ticked_of self event }
    {
        if quiet(self.tcr, event) {
            self.count()
        } else {
            self.apply(event)
        }
    }

    // Whether the event makes the watchdog halt or reset the core.
    #[tactic(auto, unfolding(crate::specs::Timer::acts_of))]
    pub fn acts(self, event: u8) -> bool
        ensures { result ≡ acts_of self event }
    {
        if event == 0 {
            return false;
        }
        watchdog_event(self.tcr, event)
            & bit_at(self.tsr, Bit(0))
            & bit_at(self.tsr, Bit(1))
            & (bits_at(self.tcr, Bit(2), Bit(3)) != 0)
    }

    // The watchdog's action.
    #[tactic(auto, unfolding(crate::specs::Timer::acted_of))]
    pub fn act(self) -> State
        ensures { result ≡ acted_of self }
    {
        let wrc = bits_at(self.tcr, Bit(2), Bit(3));
        let tsr = put_at(self.tsr, Bit(2), Bit(3), wrc);
        let tcr = put_at(self.tcr, Bit(2), Bit(3), 0);
        self.set(Reg::Tsr, tsr)
            .set(Reg::Tcr, tcr)
            .stop(asked(wrc, Halt::Watchdog))
    }
}
