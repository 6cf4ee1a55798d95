//! Threads that help with the articles of a group.
ghost use Rattle.std.specs.Prelude.{◌≡◌, IfSome};
ghost use Rattle.std.specs.Arc.{arc_value};
ghost use Rattle.std.specs.List.{All};
ghost use Rattle.clip_run.specs.Due.{AddsDue, AreDue, FinishesOne, IsAskedFor};

use crate::batch::Pending;
use crate::group::{Answer, Group, order_last_first};
use clip_front::Settings;
use clip_match::Gate;
use std::alloc::Global;
use std::collections::VecDeque;
use std::snapshot::Snapshot;
use std::sync::Arc;
use std::sync::atomic::AtomicBool;
use std::sync::atomic::Ordering::SeqCst;
use std::thread;
use std::thread::{Promise, PromisedHandle, Threads};

/// What a helper is asked for: what is due to articles of these lines, in a run with these settings.
#[derive(Drop)]
pub struct Asked {
    /// The lines.
    pub items: Snapshot<Vec<Pending>>,
    /// The settings.
    pub settings: Settings,
}

impl Asked {
    /// What is due to articles of the group. Constant time.
    fn of<G>(group: &Group<G>) -> Asked
        ensures items { result.items.value.items ≡ group.now.items.items }
        ensures settings { result.settings ≡ group.now.settings }
    {
        Asked {
            items: Snapshot::of(&group.items),
            settings: group.settings,
        }
    }
}

/// What a helper leaves.
#[derive(Drop)]
pub struct Helped {
    /// What it found.
    pub answers: Vec<Answer>,
}

impl Promise<Helped> for Asked {
    ghost use Rattle.clip_run.specs.Due.{AreDue};

    ghost kept_by = { λ asked helped. AreDue asked.settings asked.items.value.items helped.answers.items };
}

/// A thread that was asked to help.
#[derive(Drop)]
pub struct Helper {
    /// The thread.
    pub thread: PromisedHandle<Helped, Asked>,
    came: Arc<AtomicBool>,
}

/// What a helper does: it tells that it has come, before it takes an article, and takes articles until all are taken.
fn help<G: Gate + Drop>(alloc: Global, group: &Group<G>, came: &AtomicBool) -> Helped
    ensures { AreDue group.now.settings group.now.items.items result.answers.items }
{
    came.store(true, SeqCst);
    let answers = group.take_articles(alloc);
    Helped { answers }
}

impl Helper {
    /// A thread that helps with the group, or none where no thread can be made or memory is refused.
    fn start<R: Threads, G: Gate + Drop + Send + 'static>(
        rt: &R,
        alloc: Global,
        group: &Arc<Group<G>>,
    ) -> Option<Helper>
        ensures { IfSome result (IsAskedFor (arc_value group.now).settings (arc_value group.now).items.items) }
    {
        let Ok(came) = Arc::new(alloc, AtomicBool::new(false)) else {
            return None;
        };
        let Ok(told) = Arc::try_clone(&came) else {
            return None;
        };
        let Ok(shared) = Arc::try_clone(group) else {
            return None;
        };
        let asked = Asked::of(&shared);
        let work = move || help(alloc, &shared, &told);
        match thread::spawn_with(rt, asked, work) {
            Ok(thread) => Some(Helper { thread, came }),
            Err(_) => None,
        }
    }

    /// Whether it has come. One that has not when all articles are taken takes none.
    fn has_come(&self) -> bool {
        self.came.load(SeqCst)
    }
}

/// How much there is to match.
#[derive(Clone, Copy, Debug)]
pub struct Load {
    /// So many articles.
    pub articles: usize,
    /// Their weight: the bytes of their lines, and `ARTICLE_WEIGHT` for each.
    pub weight: u64,
}

/// What an article weighs beside the bytes of its line.
const ARTICLE_WEIGHT: u64 = 64;

/// A group is shared where it weighs so many times what is matched of a group before its helpers come.
const LEADS_THAT_PAY: u64 = 4;

/// How much a group that was shared counts for what is known of the helpers' coming.
const SHARED_COUNTS: u64 = 4;

/// How much a group that was not shared counts, for which it is then assumed that helpers would have come at once.
const UNSHARED_COUNTS: u64 = 32;

/// The threads that help a run, each with one group, and what is known of how soon they come.
#[derive(Drop)]
pub struct Helpers {
    alloc: Global,
    /// How many there may be at a time.
    most: usize,
    /// Those that had not come when all articles of their group were taken.
    late: VecDeque<Helper>,
    /// What is matched of a group before a helper takes an article of it, by weight, as it was lately.
    lead: u64,
}

impl Load {
    /// Nothing.
    pub fn none() -> Load {
        Load {
            articles: 0,
            weight: 0,
        }
    }

    /// This much, and so many articles of a line of so many bytes.
    pub fn with(self, articles: usize, bytes: usize) -> Load {
        let each = ARTICLE_WEIGHT.saturating_mul(articles as u64);
        Load {
            articles: self.articles.saturating_add(articles),
            weight: self
                .weight
                .saturating_add(each)
                .saturating_add(bytes as u64),
        }
    }
}

impl Helpers {
    /// The helpers of so many workers, of which the thread that takes the lines is one. None has been started.
    pub fn new(alloc: Global, workers: u32) -> Helpers {
        Helpers {
            alloc,
            most: workers.saturating_sub(1) as usize,
            late: VecDeque::new(alloc),
            lead: 0,
        }
    }

    /// How many helpers a group of this load is to have: none where it would be matched before they have come, but as
    /// many as there may be where a gate may hold an article until another has come.
    pub fn count_for(&mut self, load: Load, may_hold: bool) -> usize {
        let others = load.articles.saturating_sub(1);
        let most = others.min(self.most.saturating_sub(self.late.len()));
        if may_hold || most == 0 {
            return most;
        }
        if load.weight < self.lead.saturating_mul(LEADS_THAT_PAY) {
            self.lead = self.lead.saturating_sub(self.lead / UNSHARED_COUNTS + 1);
            return 0;
        }
        let leads = load.weight / self.lead.max(1);
        most.min(usize::try_from(leads / 2).unwrap_or(usize::MAX))
    }

    /// Takes in how much of the load this thread has matched before so many helpers came, where it matched so many
    /// articles in all, and from then on each the same share.
    fn learn(&mut self, load: Load, matched: usize, helpers: usize) {
        let helpers = helpers as u64;
        let articles = load.articles as u64;
        let in_step = (matched as u64).saturating_mul(helpers.saturating_add(1));
        let alone = in_step.saturating_sub(articles) / helpers.max(1);
        let weight = alone.saturating_mul(load.weight / articles.max(1));
        let before = self.lead.saturating_sub(self.lead / SHARED_COUNTS);
        self.lead = before.saturating_add(weight / SHARED_COUNTS);
    }

    /// Starts so many helpers of a group, or fewer where no more can be made or memory is refused.
    fn start<R: Threads, G: Gate + Drop + Send + 'static>(
        &mut self,
        rt: &R,
        group: &Arc<Group<G>>,
        count: usize,
    ) -> Vec<Helper>
        ensures { All (IsAskedFor (arc_value group.now).settings (arc_value group.now).items.items) result.items }
    {
        let alloc = self.alloc;
        let mut started = Vec::new(alloc);
        for _ in 0..count {
            if started.reserve(1).is_err() || self.late.reserve(count).is_err() {
                break;
            }
            let Some(helper) = Helper::start(rt, alloc, group) else {
                break;
            };
            let _ = started.push(helper);
        }
        started
    }

    /// Adds what a helper found, where it has come. One that has not is late.
    fn finish<R: Threads>(&mut self, rt: &R, helper: Helper, answers: &mut Vec<Answer>)
        ensures { AddsDue helper answers.old.items answers.new.items }
    {
        if !helper.has_come() {
            let _ = self.late.push_back(helper);
            return;
        }
        let mut helped = helper.thread.join(rt);
        let _ = answers.append(&mut helped.answers);
    }

    /// Finishes with the last of these helpers, if there is one.
    fn finish_last<R: Threads>(
        &mut self,
        rt: &R,
        helpers: &mut Vec<Helper>,
        answers: &mut Vec<Answer>,
    )
        ensures { FinishesOne helpers.old.items helpers.new.items answers.old.items answers.new.items }
    {
        let Some(helper) = helpers.pop() else {
            return;
        };
        self.finish(rt, helper, answers);
    }

    /// What this thread and so many helpers find of the articles of a group, the first article last. Each takes
    /// articles until all are taken; this one waits for those that have taken one, and for no other. Where memory is
    /// refused, there may be articles of which nothing is found.
    pub fn answers<R: Threads, G: Gate + Drop + Send + 'static>(
        &mut self,
        rt: &R,
        group: &Arc<Group<G>>,
        load: Load,
        count: usize,
    ) -> Vec<Answer>
        ensures { AreDue (arc_value group.now).settings (arc_value group.now).items.items result.items }
    {
        let mut started = self.start(rt, group, count);
        let mut answers = group.take_articles(self.alloc);
        self.learn(load, answers.len(), started.len());
        for _ in 0..started.len() {
            self.finish_last(rt, &mut started, &mut answers);
        }
        order_last_first(&mut answers);
        answers
    }

    /// Joins late helpers that have come since.
    pub fn greet<R: Threads>(&mut self, rt: &R) {
        for _ in 0..self.late.len() {
            let Some(helper) = self.late.pop_front() else {
                break;
            };
            if helper.has_come() {
                let _ = helper.thread.join(rt);
            } else {
                let _ = self.late.push_back(helper);
            }
        }
    }

    /// Joins each helper that is late. It waits for them.
    pub fn stop<R: Threads>(&mut self, rt: &R) {
        for _ in 0..self.late.len() {
            if let Some(helper) = self.late.pop_front() {
                let _ = helper.thread.join(rt);
            }
        }
    }
}
