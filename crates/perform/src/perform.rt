// A word by its form: its operands are taken out of it here.
ghost use Rattle.std.specs.Prelude.{◌≡◌};
ghost use Rattle.marked.specs.Mark.{marked_of};
ghost use Rattle.perform.specs.Performed.{performed_of, Still};

use crate::store;
use entries::tags::Tags;
use insn::fields::fields_of;
use insn::instr::*;
use insn::profile::Profile;
use machine::state::State;
use marked::mark::mark;
use marked::step::load_store_marked;
use reading::form::Form;
use reading::reading::Reading;

fn perform(
    profile: Profile,
    state: State,
    mem: &mut [u8],
    tags: &mut Tags,
    word: u32,
    form: Form,
) -> State
    ensures { (result ≡ marked_of (performed_of profile state mem.old word form)) × ((mem.new ≡ (performed_of profile state mem.old word form).mem) × Still tags.old tags.new mem.old mem.new) }
{
    match form {
        Form::Unaligned => state.instruction_storage(profile),
        Form::Outside => mark(state.instruction_storage(profile), true),
        Form::Illegal => state.program(profile, word, false),
        Form::ArithImm(op) => {
            let f = fields_of(word);
            state.arithmetic(Arithmetic::Immediate {
                op,
                rt: f.rt,
                ra: f.ra,
                si: f.imm,
            })
        }
        Form::Arith(op) => {
            let f = fields_of(word);
            state.arithmetic(Arithmetic::Register {
                op,
                rt: f.rt,
                ra: f.ra,
                rb: f.rb,
                oe: f.oe,
                rc: f.rc,
            })
        }
        Form::ArithOne(op) => {
            let f = fields_of(word);
            state.arithmetic(Arithmetic::One {
                op,
                rt: f.rt,
                ra: f.ra,
                oe: f.oe,
                rc: f.rc,
            })
        }
        Form::Multiply(sign) => {
            let f = fields_of(word);
            state.arithmetic(Arithmetic::Multiply {
                sign,
                rt: f.rt,
                ra: f.ra,
                rb: f.rb,
                rc: f.rc,
            })
        }
        Form::MultiplyImm => {
            let f = fields_of(word);
            state.arithmetic(Arithmetic::MultiplyImm {
                rt: f.rt,
                ra: f.ra,
                si: f.imm,
            })
        }
        Form::MultiplyLow => {
            let f = fields_of(word);
            state.arithmetic(Arithmetic::MultiplyLow {
                rt: f.rt,
                ra: f.ra,
                rb: f.rb,
                oe: f.oe,
                rc: f.rc,
            })
        }
        Form::LogicImm(op) => {
            let f = fields_of(word);
            state.logical(Logical::Immediate {
                op,
                rs: f.rt,
                ra: f.ra,
                ui: f.imm,
            })
        }
        Form::Logic(op) => {
            let f = fields_of(word);
            state.logical(Logical::Register {
                op,
                rs: f.rt,
                ra: f.ra,
                rb: f.rb,
                rc: f.rc,
            })
        }
        Form::LogicOne(op) => {
            let f = fields_of(word);
            state.logical(Logical::One {
                op,
                rs: f.rt,
                ra: f.ra,
                rc: f.rc,
            })
        }
        Form::CompareImm(sign) => {
            let f = fields_of(word);
            state.compare(Compare::Immediate {
                sign,
                ra: f.ra,
                imm: f.imm,
            })
        }
        Form::Compare(sign) => {
            let f = fields_of(word);
            state.compare(Compare::Register {
                sign,
                ra: f.ra,
                rb: f.rb,
            })
        }
        Form::RotateImm(op) => {
            let f = fields_of(word);
            state.rotate(Rotate::Immediate {
                op,
                rs: f.rt,
                ra: f.ra,
                sh: f.rb as u16,
                mb: f.mb,
                me: f.me,
                rc: f.rc,
            })
        }
        Form::Rotate => {
            let f = fields_of(word);
            state.rotate(Rotate::Register {
                rs: f.rt,
                ra: f.ra,
                rb: f.rb,
                mb: f.mb,
                me: f.me,
                rc: f.rc,
            })
        }
        Form::Shift(op) => {
            let f = fields_of(word);
            state.rotate(Rotate::Shift {
                op,
                rs: f.rt,
                ra: f.ra,
                rb: f.rb,
                rc: f.rc,
            })
        }
        Form::Srawi => {
            let f = fields_of(word);
            state.rotate(Rotate::Srawi {
                rs: f.rt,
                ra: f.ra,
                sh: f.rb,
                rc: f.rc,
            })
        }
        Form::RotateDouble(op) => {
            let f = fields_of(word);
            state.rotate(Rotate::Double {
                op,
                ds: f.rt,
                da: f.ra,
                sh: f.sh,
                mb: f.mb6,
                rc: f.rc,
            })
        }
        Form::Load(width) => {
            let f = fields_of(word);
            load_store_marked(
                profile,
                state,
                mem,
                LoadStore::Load {
                    width,
                    update: false,
                    rt: f.rt,
                    ra: f.ra,
                    d: f.imm,
                },
            )
        }
        Form::LoadUpdate(width) => {
            let f = fields_of(word);
            load_store_marked(
                profile,
                state,
                mem,
                LoadStore::Load {
                    width,
                    update: true,
                    rt: f.rt,
                    ra: f.ra,
                    d: f.imm,
                },
            )
        }
        Form::LoadIndexed(width) => {
            let f = fields_of(word);
            load_store_marked(
                profile,
                state,
                mem,
                LoadStore::LoadIndexed {
                    width,
                    rt: f.rt,
                    ra: f.ra,
                    rb: f.rb,
                },
            )
        }
        Form::Store(width) => {
            let f = fields_of(word);
            store::store(profile, state, mem, tags, width, false, f.rt, f.ra, f.imm)
        }
        Form::StoreUpdate(width) => {
            let f = fields_of(word);
            store::store(profile, state, mem, tags, width, true, f.rt, f.ra, f.imm)
        }
        Form::StoreIndexed(width) => {
            let f = fields_of(word);
            store::store_indexed(profile, state, mem, tags, width, f.rt, f.ra, f.rb)
        }
        Form::LoadDouble => {
            let f = fields_of(word);
            load_store_marked(
                profile,
                state,
                mem,
                LoadStore::LoadDouble {
                    update: false,
                    dt: f.rt,
                    ra: f.ra,
                    d: f.imm,
                },
            )
        }
        Form::LoadDoubleUpdate => {
            let f = fields_of(word);
            load_store_marked(
                profile,
                state,
                mem,
                LoadStore::LoadDouble {
                    update: true,
                    dt: f.rt,
                    ra: f.ra,
                    d: f.imm,
                },
            )
        }
        Form::StoreDouble => {
            let f = fields_of(word);
            store::store_double(profile, state, mem, tags, false, f.rt, f.ra, f.imm)
        }
        Form::StoreDoubleUpdate => {
            let f = fields_of(word);
            store::store_double(profile, state, mem, tags, true, f.rt, f.ra, f.imm)
        }
        Form::Stack(op) => {
            let f = fields_of(word);
            store::stack(profile, state, mem, tags, op, f.ra, f.dd)
        }
        Form::Branch => {
            let f = fields_of(word);
            state.branch(Branch::Always {
                aa: f.aa,
                lk: f.rc,
                li: f.li,
            })
        }
        Form::BranchIf => {
            let f = fields_of(word);
            state.branch(Branch::Conditional {
                bo: f.rt,
                bi: f.ra,
                bd: f.bd,
                aa: f.aa,
                lk: f.rc,
            })
        }
        Form::BranchTo(op) => {
            let f = fields_of(word);
            state.branch(Branch::Register {
                op,
                bo: f.rt,
                bi: f.ra,
                bh: f.rb,
                lk: f.rc,
            })
        }
        Form::Trap => {
            let f = fields_of(word);
            state.trap(profile, word, f.rt, f.rc)
        }
        Form::MoveSpr(op) => {
            let f = fields_of(word);
            state.system(
                profile,
                System::Spr {
                    op,
                    rt: f.rt,
                    spr: f.spr,
                },
            )
        }
        Form::MoveReg(op) => {
            let f = fields_of(word);
            state.system(profile, System::Move { op, rt: f.rt })
        }
        Form::Wrteei => {
            let f = fields_of(word);
            state.system(profile, System::Wrteei { e: f.e })
        }
        Form::Rfi => state.system(profile, System::Rfi),
        Form::Sync => state.system(profile, System::Sync),
        Form::Cache(op) => {
            let f = fields_of(word);
            store::cache(profile, state, mem, tags, op, f.ra, f.rb)
        }
    }
}

pub fn carry_out(
    profile: Profile,
    state: State,
    mem: &mut [u8],
    tags: &mut Tags,
    reading: Reading,
) -> State
    ensures { (result ≡ marked_of (performed_of profile state mem.old reading.word reading.form)) × ((mem.new ≡ (performed_of profile state mem.old reading.word reading.form).mem) × Still tags.old tags.new mem.old mem.new) }
{
    let word = reading.word;
    let form = reading.form;
    perform(profile, state, mem, tags, word, form)
}
