//! A session with a teller around it that answers questions for points.
ghost use Rattle.std.specs.Prelude.{◌≡◌, ◌&&◌, codes, not, IfSome, List, None};
ghost use Rattle.prop_engine.specs.Answers.{answer_of, is_refusal};
ghost use Rattle.prop_notes.specs.Notes.{is_done};
ghost use Rattle.prop_lessons.specs.Lessons.{AreTaught};
ghost use Rattle.prop_procedures.specs.Stored.{Stored};
ghost use Rattle.prop_seeking.specs.Asking.{begins};
ghost use Rattle.prop_seeking.specs.inner.Seekers.{Ground, IsInquiry};

use crate::asking::{as_value, is_limit, is_question, is_step};
use crate::bound::bounding;
use crate::inquiry::{End, Inquiry, Plans};
use crate::question::{Asked, question_of};
use prop_engine::Reply;
use prop_guards::Guarded;
use prop_language::read_line;
use prop_refusals::Refusal;
use prop_scheduler::Order;
use prop_solve::{Earlier, Goal, Plan};
use prop_telling::Teller;
use prop_workbench::Session;
use std::alloc::{AllocError, Global};

/// Whether a line was carried out without a word.
fn is_done(reply: &Reply) -> bool
    ensures { result ≡ is_done (answer_of reply.now) }
{
    matches!(reply, Reply::Done)
}

/// Whether a line ends the question: it was carried out without a word, and set no limit.
fn ends(reply: &Reply, line: &[u8]) -> bool
    ensures { result ≡ (is_done (answer_of reply.now) && not (begins (codes "limit") line.now)) }
{
    is_done(reply) && !is_limit(line)
}

/// Whether a line was refused.
fn is_refused(reply: &Reply) -> bool
    ensures { result ≡ is_refusal (answer_of reply.now) }
{
    matches!(reply, Reply::Refused(_))
}

/// Ends a question, where there is one. What it learned is left, where there is memory for it.
pub(crate) fn put_by(alloc: Global, inquiry: &mut Option<Inquiry>, earlier: &mut Option<Earlier>)
    ensures ended { inquiry.new ≡ None }
    ensures left { (library : List Stored)
        → IfSome inquiry.old (λ i. (g : Ground) × (g.library ≡ library) × IsInquiry g i)
        → IfSome earlier.old (AreTaught library) → IfSome earlier.new (AreTaught library) }
{
    if let Some(ended) = inquiry.take() {
        *earlier = left(alloc, ended);
    }
}

/// What a question that ends leaves, where there is memory for it.
fn left(alloc: Global, ended: Inquiry) -> Option<Earlier>
    ensures { (g : Ground) → IsInquiry g ended → IfSome result (AreTaught g.library) }
{
    match ended.leave(alloc) {
        Ok(earlier) => Some(earlier),
        Err(_) => None,
    }
}

/// A teller, the question that the next line may go on with, and what those before it left.
#[derive(Drop)]
pub struct Seeker<R, O> {
    pub(crate) teller: Teller<R, O>,
    pub(crate) inquiry: Option<Inquiry>,
    pub(crate) earlier: Option<Earlier>,
}

impl<R: Guarded + Drop, O: Order + Drop> Seeker<R, O> {
    ghost use Rattle.std.specs.Prelude.{◌≡◌, ◌⊎◌, ◌&&◌, ◌++◌, ℕ, List, codes, cond, not, IfOk};
    ghost use Rattle.std.specs.Prelude.{IfSome, IsTrue};
    ghost use Rattle.std.specs.Prelude.{OnOk, slice_index, string_bytes, None, Some, true};
    ghost use Rattle.std.specs.Option.{option_map};
    ghost use Rattle.prop_language.specs.Reading.{AsRead};
    ghost use Rattle.prop_language.specs.Said.{words};
    ghost use Rattle.prop_engine.specs.Answers.{answer_of, Refused, Text};
    ghost use Rattle.prop_workbench.specs.Loading.{Loads};
    ghost use Rattle.prop_workbench.specs.Sessions.{library_of, state_of, IsMeant, IsSound};
    ghost use Rattle.prop_notes.specs.Notes.{is_done, no_notes};
    ghost use Rattle.prop_telling.specs.Telling.{telling};
    ghost use Rattle.prop_telling.specs.inner.Telling.{told_of};
    ghost use Rattle.prop_lessons.specs.Lessons.{AreTaught};
    ghost use Rattle.prop_procedures.specs.Stored.{Stored};
    ghost use Rattle.prop_solve.specs.Questions.{is_optimum};
    ghost use Rattle.prop_seeking.specs.Asking.{as_value, asked, begins};
    ghost use Rattle.prop_seeking.specs.Plans.{SaysOne};
    ghost use Rattle.prop_seeking.specs.Seeking.{seeking, Seeks, Strides};
    ghost use Rattle.prop_seeking.specs.inner.Seekers.{Answers, AreBefore, Gives, IsApt, IsInquiry};
    ghost use Rattle.prop_seeking.specs.inner.Seekers.{Ground, IsOpen, IsOpenIn, IsReady};
    ghost use Rattle.prop_seeking.specs.inner.Seekers.{IsSameQuestion};
    ghost use Rattle.prop_seeking.specs.inner.Seekers.{Replied};
    ghost use Rattle.prop_seeking.specs.inner.Seekers.{aim_of, asked_of, ground_in, inquiry_of};
    ghost use Rattle.prop_seeking.specs.inner.Seekers.{sought_of};

    /// A seeker of a session.
    pub fn new(session: Session<R, O>) -> Seeker<R, O>
        requires sound { IsSound R.value_of session }
        ensures session { result.teller.session ≡ session }
        ensures notes { result.teller.notes ≡ no_notes }
        ensures inquiry { result.inquiry ≡ None }
        ensures earlier { result.earlier ≡ None }
    {
        Seeker {
            teller: Teller::new(session),
            inquiry: None,
            earlier: None,
        }
    }

    /// Carries out a line: a question for points, or as its teller does.
    pub fn command(&mut self, line: &[u8]) -> Reply
        requires ready { IsReady R.value_of self.old }
        ensures same { self.new.teller.session.live.network.library
            ≡ self.old.teller.session.live.network.library }
        ensures ready { IsReady R.value_of self.new }
        ensures seeks { seeking O.picks (library_of R.value_of self.old.teller.session)
            (sought_of self.old) line.now (answer_of result) (sought_of self.new) }
    {
        if is_question(line) {
            return self.seek(line);
        }
        if is_step(line) && self.is_under_way() {
            return self.stride();
        }
        self.tell(line)
    }

    /// Whether there is a question of which a step can be told.
    fn is_under_way(&self) -> bool
        ensures { IsTrue result → IsOpenIn self.now.inquiry }
    {
        match &self.inquiry {
            Some(inquiry) => inquiry.is_under_way(),
            None => false,
        }
    }

    /// Goes on with the question by a step, and tells it. After want of memory the question begins
    /// anew.
    fn stride(&mut self) -> Reply
        requires ready { IsReady R.value_of self.old }
        requires under_way { IsOpenIn self.old.inquiry }
        ensures same { self.new.teller ≡ self.old.teller }
        ensures ready { IsReady R.value_of self.new }
        ensures strides { Strides (sought_of self.old) (answer_of result) (sought_of self.new) }
    {
        let told = Reply::saying(self.strode());
        if is_refused(&told) {
            self.forget();
            return told;
        }
        told
    }

    /// The next question begins a search.
    fn forget(&mut self)
        ensures none { self.new.inquiry ≡ None }
        ensures same { self.new.teller ≡ self.old.teller }
        ensures earlier { self.new.earlier ≡ self.old.earlier }
    {
        // One call in place of the drop of each part, which a proof would go through one by one.
        drop(self.inquiry.take());
    }

    /// The next question may go on with this one.
    fn keep(&mut self, inquiry: Inquiry)
        ensures { self.new ≡ record self.old { inquiry = Some inquiry } }
    {
        drop(self.inquiry.replace(inquiry));
    }

    /// What is told of a step of the question.
    fn strode(&mut self) -> Result<String, AllocError>
        requires ready { IsReady R.value_of self.old }
        requires under_way { IsOpenIn self.old.inquiry }
        ensures same { self.new.teller ≡ self.old.teller }
        ensures ready { IsReady R.value_of self.new }
        ensures strode { IfOk result (λ text. (option_map inquiry_of self.new.inquiry
            ≡ option_map inquiry_of self.old.inquiry)
            × (rest : List ℕ) × (string_bytes text ≡ codes "step " ++ rest)) }
    {
        let Some(mut inquiry) = self.inquiry.take() else {
            return String::from_str(self.teller.session().alloc(), "step 0");
        };
        match self.step(&mut inquiry) {
            Ok(text) => {
                self.keep(inquiry);
                Ok(text)
            }
            Err(error) => {
                drop(inquiry);
                Err(error)
            }
        }
    }

    /// What is told of a step of a question.
    fn step(&self, inquiry: &mut Inquiry) -> Result<String, AllocError>
        requires means { IsMeant R.value_of self.now.teller.session }
        requires sound { IsSound R.value_of self.now.teller.session }
        requires inquiry { IsInquiry (ground_in R.value_of self.now.teller.session) inquiry.old }
        requires under_way { IsOpen inquiry.old }
        ensures inquiry { OnOk result (IsInquiry
            (ground_in R.value_of self.now.teller.session) inquiry.new) }
        ensures same { OnOk result (IsSameQuestion inquiry.old inquiry.new) }
        ensures told { IfOk result (λ text.
            (rest : List ℕ) × (string_bytes text ≡ codes "step " ++ rest)) }
    {
        let session = self.teller.session();
        let premises = session.search().premises();
        let stride = inquiry.stride(session.live().network(), premises)?;
        self.stride_text(inquiry.solver(), stride)
    }

    /// Carries out a line as its teller does. What changes something ends the question, but for the
    /// limit.
    fn tell(&mut self, line: &[u8]) -> Reply
        requires ready { IsReady R.value_of self.old }
        ensures same { self.new.teller.session.live.network.library
            ≡ self.old.teller.session.live.network.library }
        ensures ready { IsReady R.value_of self.new }
        ensures tells { telling O.picks (library_of R.value_of self.old.teller.session)
            (told_of self.old.teller) line.now (answer_of result) (told_of self.new.teller) }
        ensures inquiry { self.new.inquiry ≡ cond (is_done (answer_of result)
            && not (begins (codes "limit") line.now)) None self.old.inquiry }
    {
        let reply = self.teller.command(line);
        if ends(&reply, line) {
            let alloc = self.teller.session().alloc();
            put_by(alloc, &mut self.inquiry, &mut self.earlier);
            return reply;
        }
        reply
    }

    /// Carries out the lines of a prelude, in order. The first that is refused ends it with its
    /// refusal, and those before it stand.
    pub(crate) fn load_prelude(&mut self, lines: &[&str]) -> Result<(), Refusal>
        requires ready { IsReady R.value_of self.old }
        ensures same { self.new.teller.session.live.network.library
            ≡ self.old.teller.session.live.network.library }
        ensures ready { IsReady R.value_of self.new }
        ensures ok { OnOk result (Loads
            (seeking O.picks (library_of R.value_of self.old.teller.session))
            (sought_of self.old) (words lines.now) (sought_of self.new)) }
    {
        for line in lines {
            if let Reply::Refused(refusal) = self.command(line.as_bytes()) {
                return Err(refusal);
            }
        }
        Ok(())
    }

    /// Answers a question. After want of memory for the reply it begins anew.
    fn seek(&mut self, line: &[u8]) -> Reply
        requires ready { IsReady R.value_of self.old }
        ensures same { self.new.teller ≡ self.old.teller }
        ensures ready { IsReady R.value_of self.new }
        ensures seeks { Seeks (library_of R.value_of self.old.teller.session) (sought_of self.old)
            line.now (answer_of result) (option_map inquiry_of self.new.inquiry) }
    {
        match self.asked(line) {
            Ok(asked) => self.reply(&asked),
            Err(refusal) => Reply::Refused(refusal),
        }
    }

    /// What a line asks.
    fn asked(&self, line: &[u8]) -> Result<Asked, Refusal>
        requires sound { IsSound R.value_of self.now.teller.session }
        ensures asked { (result ≡ Err Refusal.Memory) ⊎ AsRead (as_value line.now) (λ read.
            Gives asked_of result (asked (state_of self.now.teller.session) read)) }
        ensures apt { IfOk result (IsApt self.now.teller.session.live.network.cells.kinds) }
    {
        let session = self.teller.session();
        let alloc = session.alloc();
        let Ok(line) = as_value(alloc, line) else {
            return Err(Refusal::Memory);
        };
        match read_line(alloc, &line) {
            Ok(command) => {
                let cells = session.live().network().data();
                question_of(alloc, session.names(), cells, &command)
            }
            Err(refusal) => Err(refusal),
        }
    }

    /// The reply to what is asked, after which it can be gone on with, or want of memory.
    fn reply(&mut self, asked: &Asked) -> Reply
        requires ready { IsReady R.value_of self.old }
        requires apt { IsApt self.old.teller.session.live.network.cells.kinds asked.now }
        ensures same { self.new.teller ≡ self.old.teller }
        ensures ready { IsReady R.value_of self.new }
        ensures replies { ((answer_of result ≡ Refused Refusal.Memory) × (self.new.inquiry ≡ None))
            ⊎ ((text : List ℕ) × Replied (library_of R.value_of self.old.teller.session)
            (state_of self.old.teller.session) (option_map inquiry_of self.old.inquiry)
            (asked_of asked.now) (option_map inquiry_of self.new.inquiry) text
            × (answer_of result ≡ Text text)) }
    {
        let reply = Reply::saying(self.answered(asked));
        if is_refused(&reply) {
            self.forget();
            return reply;
        }
        reply
    }

    /// The inquiry of what is asked: the one before, or one that begins with what was left.
    fn begun(&self, asked: &Asked, before: Option<Inquiry>) -> Result<Inquiry, AllocError>
        requires means { IsMeant R.value_of self.now.teller.session }
        requires sound { IsSound R.value_of self.now.teller.session }
        requires inquiry { IfSome before (IsInquiry
            (ground_in R.value_of self.now.teller.session)) }
        requires earlier { IfSome self.now.earlier
            (AreTaught (library_of R.value_of self.now.teller.session)) }
        requires apt { IsApt self.now.teller.session.live.network.cells.kinds asked.now }
        ensures inquiry { IfOk result (IsInquiry (ground_in R.value_of self.now.teller.session)) }
        ensures goal { IfOk result (λ i. i.solver.goal ≡ asked.now.goal) }
        ensures named { IfOk result (λ i. i.solver.named ≡ asked.now.named.items) }
        ensures before { IfOk result (λ i. AreBefore (option_map inquiry_of before)
            (asked_of asked.now).0 (inquiry_of i).1) }
    {
        match before {
            Some(inquiry) if inquiry.is_for(asked) => Ok(inquiry),
            _ => {
                let session = self.teller.session();
                let premises = session.search().premises();
                let network = session.live().network();
                let earlier = self.earlier.as_ref();
                Inquiry::new(session.alloc(), network, premises, asked, earlier)
            }
        }
    }

    /// The question that is under way, where it is the one that is asked. Another one ends.
    fn taken(&mut self, asked: &Asked) -> Option<Inquiry>
        requires ready { IsReady R.value_of self.old }
        ensures same { self.new.teller ≡ self.old.teller }
        ensures ready { IsReady R.value_of self.new }
        ensures taken { (result ≡ self.old.inquiry) ⊎ (result ≡ None) }
        ensures inquiry { IfSome result
            (IsInquiry (ground_in R.value_of self.new.teller.session)) }
    {
        if self.is_same(asked) {
            return self.inquiry.take();
        }
        let alloc = self.teller.session().alloc();
        put_by(alloc, &mut self.inquiry, &mut self.earlier);
        None
    }

    /// Whether the question that is under way is the one that is asked.
    fn is_same(&self, asked: &Asked) -> bool {
        match &self.inquiry {
            Some(inquiry) => inquiry.is_for(asked),
            None => false,
        }
    }

    /// What is replied to what is asked. The inquiry goes on with the next such question, or after
    /// want of memory begins anew.
    fn answered(&mut self, asked: &Asked) -> Result<String, AllocError>
        requires ready { IsReady R.value_of self.old }
        requires apt { IsApt self.old.teller.session.live.network.cells.kinds asked.now }
        ensures same { self.new.teller ≡ self.old.teller }
        ensures ready { IsReady R.value_of self.new }
        ensures replied { IfOk result (λ text. Replied
            (library_of R.value_of self.old.teller.session) (state_of self.old.teller.session)
            (option_map inquiry_of self.old.inquiry) (asked_of asked.now)
            (option_map inquiry_of self.new.inquiry) (string_bytes text)) }
    {
        let before = self.taken(asked);
        let mut inquiry = self.begun(asked, before)?;
        match self.text(asked, &mut inquiry) {
            Ok(text) => {
                self.keep(inquiry);
                Ok(text)
            }
            Err(error) => {
                drop(inquiry);
                Err(error)
            }
        }
    }

    /// What is replied to what is asked, by its inquiry.
    fn text(&self, asked: &Asked, inquiry: &mut Inquiry) -> Result<String, AllocError>
        requires means { IsMeant R.value_of self.now.teller.session }
        requires sound { IsSound R.value_of self.now.teller.session }
        requires inquiry { IsInquiry (ground_in R.value_of self.now.teller.session) inquiry.old }
        requires goal { inquiry.old.solver.goal ≡ asked.now.goal }
        requires named { inquiry.old.solver.named ≡ asked.now.named.items }
        ensures inquiry { OnOk result (IsInquiry
            (ground_in R.value_of self.now.teller.session) inquiry.new) }
        ensures same { OnOk result (IsSameQuestion inquiry.old inquiry.new) }
        ensures answers { IfOk result (λ text. Answers
            (library_of R.value_of self.now.teller.session) (state_of self.now.teller.session)
            inquiry.old.solver asked.now.most inquiry.old.solver.excuses
            inquiry.new.solver.excuses (string_bytes text)) }
    {
        match asked.goal {
            Goal::Any => self.points(inquiry),
            Goal::Differing => self.plans(inquiry, asked),
            goal => self.optimum(inquiry, goal),
        }
    }

    /// Some points.
    fn points(&self, inquiry: &mut Inquiry) -> Result<String, AllocError>
        requires means { IsMeant R.value_of self.now.teller.session }
        requires sound { IsSound R.value_of self.now.teller.session }
        requires inquiry { IsInquiry (ground_in R.value_of self.now.teller.session) inquiry.old }
        requires goal { inquiry.old.solver.goal ≡ Goal.Any }
        ensures inquiry { OnOk result (IsInquiry
            (ground_in R.value_of self.now.teller.session) inquiry.new) }
        ensures same { OnOk result (IsSameQuestion inquiry.old inquiry.new) }
        ensures answers { IfOk result (λ text. (most : ℕ) → Answers
            (library_of R.value_of self.now.teller.session) (state_of self.now.teller.session)
            inquiry.old.solver most inquiry.old.solver.excuses
            inquiry.new.solver.excuses (string_bytes text)) }
    {
        let session = self.teller.session();
        let premises = session.search().premises();
        let end = inquiry.find(session.live().network(), premises, session.limit())?;
        match (inquiry.last(), &end) {
            (Some(plan), _) => self.plan("", plan),
            (None, End::Refuted(by)) => self.none(by),
            (None, End::Open) => self.unsettled(),
        }
    }

    /// An end of a number.
    fn optimum(&self, inquiry: &mut Inquiry, goal: Goal) -> Result<String, AllocError>
        requires means { IsMeant R.value_of self.now.teller.session }
        requires sound { IsSound R.value_of self.now.teller.session }
        requires inquiry { IsInquiry (ground_in R.value_of self.now.teller.session) inquiry.old }
        requires goal { inquiry.old.solver.goal ≡ goal }
        requires optimum { is_optimum goal ≡ true }
        ensures inquiry { OnOk result (IsInquiry
            (ground_in R.value_of self.now.teller.session) inquiry.new) }
        ensures same { OnOk result (IsSameQuestion inquiry.old inquiry.new) }
        ensures answers { IfOk result (λ text. (most : ℕ) → Answers
            (library_of R.value_of self.now.teller.session) (state_of self.now.teller.session)
            inquiry.old.solver most inquiry.old.solver.excuses
            inquiry.new.solver.excuses (string_bytes text)) }
    {
        let session = self.teller.session();
        let premises = session.search().premises();
        let end = inquiry.improve(session.live().network(), premises, session.limit())?;
        match (inquiry.last(), &end) {
            (Some(plan), End::Refuted(by)) => self.best(goal, plan, by),
            (Some(plan), End::Open) => self.so_far(inquiry, goal, plan),
            (None, End::Refuted(by)) => self.none(by),
            (None, End::Open) => self.unsettled(),
        }
    }

    /// The best points so far, and how good others can still be, where that is found out by as many
    /// steps more as a line takes.
    fn so_far(&self, inquiry: &Inquiry, goal: Goal, plan: &Plan) -> Result<String, AllocError>
        requires means { IsMeant R.value_of self.now.teller.session }
        requires sound { IsSound R.value_of self.now.teller.session }
        requires inquiry { IsInquiry (ground_in R.value_of self.now.teller.session) inquiry.now }
        requires goal { inquiry.now.solver.goal ≡ goal }
        requires optimum { is_optimum goal ≡ true }
        requires plan { inquiry.now.last ≡ Some plan.now }
        ensures { IfOk result (λ text. SaysOne (library_of R.value_of self.now.teller.session)
            (state_of self.now.teller.session) (aim_of goal)
            (slice_index inquiry.now.solver.named 0) (string_bytes text)) }
    {
        let session = self.teller.session();
        let network = session.live().network();
        let premises = session.search().premises();
        let Some(bound) = inquiry.bound(network, premises, session.limit())? else {
            return self.plan(" unsettled", plan);
        };
        match bounding(network.data(), goal, plan, bound.end) {
            Some((cell, end)) => self.bounded(cell, end, plan, &bound.by),
            None => self.plan(" unsettled", plan),
        }
    }

    /// Points that differ.
    fn plans(&self, inquiry: &mut Inquiry, asked: &Asked) -> Result<String, AllocError>
        requires means { IsMeant R.value_of self.now.teller.session }
        requires sound { IsSound R.value_of self.now.teller.session }
        requires inquiry { IsInquiry (ground_in R.value_of self.now.teller.session) inquiry.old }
        requires goal { inquiry.old.solver.goal ≡ Goal.Differing }
        requires named { inquiry.old.solver.named ≡ asked.now.named.items }
        ensures inquiry { OnOk result (IsInquiry
            (ground_in R.value_of self.now.teller.session) inquiry.new) }
        ensures same { OnOk result (IsSameQuestion inquiry.old inquiry.new) }
        ensures answers { IfOk result (λ text. Answers
            (library_of R.value_of self.now.teller.session) (state_of self.now.teller.session)
            inquiry.old.solver asked.now.most inquiry.old.solver.excuses
            inquiry.new.solver.excuses (string_bytes text)) }
    {
        let session = self.teller.session();
        let premises = session.search().premises();
        let mut plans = Plans {
            found: Vec::new(session.alloc()),
            most: asked.most,
        };
        let limit = session.limit();
        let end = inquiry.list(session.live().network(), premises, limit, &mut plans)?;
        match &end {
            End::Refuted(by) => {
                if plans.found.is_empty() && !inquiry.has_told() {
                    self.none(by)
                } else {
                    self.listing(&asked.named, &plans.found, Some(by))
                }
            }
            End::Open => {
                if plans.found.is_empty() {
                    self.unsettled()
                } else {
                    self.listing(&asked.named, &plans.found, None)
                }
            }
        }
    }
}
