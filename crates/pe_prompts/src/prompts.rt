//! The prompts of all pages.
ghost use Rattle.std.specs.Prelude.{◌≡◌, ◌↔◌, ◌<◌, ◌≤◌, ◌++◌, ℕ, [], ◌∷◌, IsTrue, OnOk, OnErr, IfOk, IfErr, IsSome, IsOk, IsErr, Err, Ok, None, Some, length, option_map, nat_eq, false, true, if◌then◌else◌};
ghost use Rattle.std.specs.Map.{remove_entry};
ghost use Rattle.indexmap.specs.IndexMap.{get};
ghost use Rattle.pe_prompts.specs.Kept.{queue_of, settled};
ghost use Rattle.pe_prompts.specs.Pending.{prompt_in, number_for, joined, left_in, all_left, left_by};
ghost use Rattle.pe_prompts.specs.Queues.{given_of, pending, pending_of, prompt_at, refusal, asked_of, at_page, HasAsked, HasSettled, IsRefused};

use crate::fault::{AnswerFault, Asked, PromptFault};
use crate::given::Given;
use crate::lists::{put, take};
use crate::queue::{Prompt, Queue};
use indexmap::IndexMap;
use pe_arena::DocRef;
use pe_base::{DocNo, FrameNo, PENDING_LIMIT, PromptNo};
use pe_features::Feature;
use pe_store::Key;
use std::alloc::{AllocError, Global};
use std::marker::Model;

/// The prompts of a session. A prompt is pending while it is not settled and some request waits for it:
/// a request whose document went waits no longer. Of the pending prompts of a page the oldest is shown.
#[derive(Drop)]
pub struct Prompts {
    // Each prompt that was given.
    given: IndexMap<u32, Given>,
    // The pending prompts of each page. One whose prompts were all settled keeps its room for the next
    // prompt, until a document goes that asked there.
    pages: IndexMap<u32, Queue>,
    // The prompts that each document asked for, with their pages; some of them may be pending no longer.
    documents: IndexMap<u32, Vec<(FrameNo, PromptNo)>>,
    alloc: Global,
}

impl Model for Prompts {
    ghost use Rattle.pe_prompts.specs.Queues.{Queues};

    ghost Value = { Queues };

    ghost use Rattle.pe_prompts.specs.Kept.{IsPrompts};

    ghost view = { λ a. record { given = a.given.entries; pages = a.pages.entries } };

    ghost invariant = { λ a. IsPrompts a.given a.pages a.documents };
}

// Puts a prompt into its page, which has none and no room yet. `AllocError` where memory wants.
// A function of its own: the room is large, and a call pays for the room of its locals.
#[inline(never)]
fn push_first(
    pages: &mut IndexMap<u32, Queue>,
    alloc: Global,
    number: PromptNo,
    prompt: Prompt,
) -> Result<(), AllocError>
    ensures ok { OnOk result ((p : ℕ) → queue_of pages.new p ≡ at_page prompt.page ((number, prompt) ∷ []) (queue_of pages.old) p) }
    ensures err { OnErr result (pages.new.entries ≡ pages.old.entries) }
{
    let page = prompt.page.get();
    let mut queue = Queue::new(alloc);
    queue.push(number, prompt)?;
    pages.insert(page, queue)?;
    Ok(())
}

// Puts a prompt behind the pending ones of its page. `AllocError` where memory wants.
fn push_in(
    pages: &mut IndexMap<u32, Queue>,
    alloc: Global,
    number: PromptNo,
    prompt: Prompt,
) -> Result<(), AllocError>
    requires above { (k : ℕ) → IsSome (prompt_in k (queue_of pages.old prompt.page)) → k < number }
    requires alone { number_for (prompt.feature, prompt.key) (queue_of pages.old prompt.page) ≡ None }
    requires room { length (queue_of pages.old prompt.page) < PENDING_LIMIT }
    ensures ok { OnOk result ((p : ℕ) → queue_of pages.new p ≡ at_page prompt.page (queue_of pages.old prompt.page ++ (number, prompt) ∷ []) (queue_of pages.old) p) }
    ensures err { OnErr result (pages.new.entries ≡ pages.old.entries) }
{
    match pages.get_mut(&prompt.page.get()) {
        Some(queue) => queue.push(number, prompt),
        None => push_first(pages, alloc, number, prompt),
    }
}

// Puts a request behind those of a prompt of the page. `AllocError` where memory wants.
fn join_in(
    pages: &mut IndexMap<u32, Queue>,
    page: FrameNo,
    number: PromptNo,
    asker: DocRef,
) -> Result<(), AllocError>
    ensures ok { OnOk result ((p : ℕ) → queue_of pages.new p ≡ at_page page (joined number asker (queue_of pages.old page)) (queue_of pages.old) p) }
    ensures err { OnErr result (pages.new.entries ≡ pages.old.entries) }
{
    match pages.get_mut(&page.get()) {
        Some(queue) => queue.join(number, asker),
        None => Ok(()),
    }
}

// Lets the page go if it has no pending prompt.
fn let_go(pages: &mut IndexMap<u32, Queue>, page: FrameNo, empty: bool)
    requires { IsTrue empty → queue_of pages.old page ≡ [] }
    ensures { (p : ℕ) → queue_of pages.new p ≡ queue_of pages.old p }
{
    if empty {
        pages.swap_remove(&page.get());
    }
}

// Takes a prompt of the page out. The page keeps its room.
fn remove_in(pages: &mut IndexMap<u32, Queue>, page: FrameNo, number: PromptNo)
    ensures queues { (p : ℕ) → queue_of pages.new p ≡ at_page page (remove_entry (nat_eq number) (queue_of pages.old page)) (queue_of pages.old) p }
    ensures gone { prompt_in number (queue_of pages.new page) ≡ None }
{
    if let Some(queue) = pages.get_mut(&page.get()) {
        queue.remove(number);
    }
}

// Drops the document's requests for a prompt of the page.
fn drop_in(pages: &mut IndexMap<u32, Queue>, page: FrameNo, number: PromptNo, doc: DocNo)
    ensures { (p : ℕ) → queue_of pages.new p ≡ left_in page number doc p (queue_of pages.old p) }
{
    let Some(queue) = pages.get_mut(&page.get()) else {
        return;
    };
    queue.drop_of(number, doc);
    let empty = queue.is_empty();
    let_go(pages, page, empty);
}

// Drops the document's requests for the prompts at the places.
fn drop_all(pages: &mut IndexMap<u32, Queue>, places: &[(FrameNo, PromptNo)], doc: DocNo)
    ensures { (p : ℕ) → queue_of pages.new p ≡ all_left doc places.now p (queue_of pages.old p) }
{
    for place in places {
        drop_in(pages, place.0, place.1, doc);
    }
}

// Notes that a prompt that was given is settled.
fn settle_in(given: &mut IndexMap<u32, Given>, number: PromptNo)
    ensures here { get nat_eq given.new number ≡ option_map settled (get nat_eq given.old number) }
    ensures others { (k : ℕ) → nat_eq number k ≡ false → get nat_eq given.new k ≡ get nat_eq given.old k }
{
    if let Some(kept) = given.get_mut(&number.get()) {
        kept.settled = true;
    }
}

// What a request is told that was to do this.
fn told(done: Result<(), AllocError>, asked: Asked) -> Result<Asked, PromptFault>
    ensures ok { IfOk result (λ a. a ≡ asked) }
    ensures done { OnOk result (IsOk done) }
    ensures err { IfErr result (λ fault. (fault ≡ PromptFault.Memory) × IsErr done) }
{
    match done {
        Ok(()) => Ok(asked),
        Err(AllocError) => Err(PromptFault::Memory),
    }
}

impl Prompts {
    /// No prompt was given.
    pub fn new(alloc: Global) -> Prompts
        ensures { result ≡ record { given = []; pages = [] } }
    {
        Prompts {
            given: IndexMap::new(alloc),
            pages: IndexMap::new(alloc),
            documents: IndexMap::new(alloc),
            alloc,
        }
    }

    /// How many prompts of the page are pending.
    pub fn pending(&self, page: FrameNo) -> u32
        ensures value { result ≡ length (pending self.now page) }
        ensures small { result ≤ PENDING_LIMIT }
    {
        match self.pages.get(&page.get()) {
            Some(queue) => queue.len(),
            None => 0,
        }
    }

    /// The pending prompt of the page that asks for the feature and the key, which an equal request joins;
    /// None where there is none.
    pub fn pending_of(&self, page: FrameNo, feature: Feature, key: &Key) -> Option<PromptNo>
        ensures { result ≡ pending_of self.now page (feature, key.now) }
    {
        self.pages.get(&page.get())?.number_for(feature, key)
    }

    /// The prompt, if it is the shown one of its page: the oldest pending one.
    ///
    /// Errors, in order: `Unknown` where no request made the prompt; `Settled` where it was answered;
    /// `Closed` where no request waits for it; `NotShown` where an older prompt of its page is pending.
    pub fn shown(&self, prompt: PromptNo) -> Result<&Prompt, AnswerFault>
        ensures ok { IfOk result (λ p. (prompt_at self.now prompt ≡ Some p.now) × (refusal self.now prompt ≡ None)) }
        ensures page { IfOk result (λ p. given_of self.now prompt ≡ Some (record { page = p.now.page; settled = false })) }
        ensures err { IfErr result (λ fault. refusal self.now prompt ≡ Some fault) }
    {
        let Some(given) = self.given.get(&prompt.get()) else {
            return Err(AnswerFault::Unknown);
        };
        if given.settled {
            return Err(AnswerFault::Settled);
        }
        let Some(queue) = self.pages.get(&given.page.get()) else {
            return Err(AnswerFault::Closed);
        };
        let Some(asked) = queue.get(prompt) else {
            return Err(AnswerFault::Closed);
        };
        if !queue.is_first(prompt) {
            return Err(AnswerFault::NotShown);
        }
        Ok(asked)
    }

    /// Asks for a feature under a key in a page: the request joins the pending prompt of the page that asks
    /// for both, and makes the prompt `no` where there is none.
    ///
    /// Errors: `TooMany` where 256 prompts are pending in the page, and none of them asks for both; `Memory`
    /// where memory wants.
    pub fn request(
        &mut self,
        number: PromptNo,
        page: FrameNo,
        feature: Feature,
        key: Key,
        asker: DocRef,
    ) -> Result<Asked, PromptFault>
        requires { (k : ℕ) → IsSome (given_of self.old k) → k < number }
        ensures told { IfOk result (λ asked. asked ≡ asked_of number (pending_of self.old page (feature, key))) }
        ensures kept { IfOk result (HasAsked self.old self.new (record { page = page; feature = feature; key = key; waiting = asker ∷ [] }) asker) }
        ensures full { (result ≡ Err PromptFault.TooMany) ↔ ((pending_of self.old page (feature, key) ≡ None) × (length (pending self.old page) ≡ PENDING_LIMIT)) }
        ensures err { OnErr result (self.new ≡ self.old) }
    {
        match self.pending_of(page, feature, &key) {
            Some(joined) => told(self.join(joined, page, asker), Asked::Joined(joined)),
            None => self.open(number, page, feature, key, asker),
        }
    }

    // Puts a request behind those of a pending prompt. `AllocError` where memory wants.
    fn join(&mut self, number: PromptNo, page: FrameNo, asker: DocRef) -> Result<(), AllocError>
        ensures given { OnOk result (self.new.given ≡ self.old.given) }
        ensures queues { OnOk result ((p : ℕ) → pending self.new p ≡ at_page page (joined number asker (pending self.old page)) (pending self.old) p) }
        ensures err { OnErr result (self.new ≡ self.old) }
    {
        let alloc = self.alloc;
        let doc = asker.doc.get();
        put(&mut self.documents, alloc, doc, (page, number))?;
        join_in(&mut self.pages, page, number, asker)?;
        Ok(())
    }

    // Makes a prompt with one request.
    fn open(
        &mut self,
        number: PromptNo,
        page: FrameNo,
        feature: Feature,
        key: Key,
        asker: DocRef,
    ) -> Result<Asked, PromptFault>
        requires above { (k : ℕ) → IsSome (given_of self.old k) → k < number }
        requires alone { pending_of self.old page (feature, key) ≡ None }
        ensures told { IfOk result (λ asked. asked ≡ Asked.New number) }
        ensures kept { OnOk result (HasAsked self.old self.new (record { page = page; feature = feature; key = key; waiting = asker ∷ [] }) asker (Asked.New number)) }
        ensures full { (result ≡ Err PromptFault.TooMany) ↔ (length (pending self.old page) ≡ PENDING_LIMIT) }
        ensures err { OnErr result (self.new ≡ self.old) }
    {
        if self.pending(page) == PENDING_LIMIT {
            return Err(PromptFault::TooMany);
        }
        told(
            self.make(number, page, feature, key, asker),
            Asked::New(number),
        )
    }

    // Makes a prompt with one request. `AllocError` where memory wants.
    fn make(
        &mut self,
        number: PromptNo,
        page: FrameNo,
        feature: Feature,
        key: Key,
        asker: DocRef,
    ) -> Result<(), AllocError>
        requires above { (k : ℕ) → IsSome (given_of self.old k) → k < number }
        requires alone { pending_of self.old page (feature, key) ≡ None }
        requires room { length (pending self.old page) < PENDING_LIMIT }
        ensures ok { OnOk result (HasAsked self.old self.new (record { page = page; feature = feature; key = key; waiting = asker ∷ [] }) asker (Asked.New number)) }
        ensures err { OnErr result (self.new ≡ self.old) }
    {
        let alloc = self.alloc;
        let doc = asker.doc.get();
        let prompt = Prompt::asked(alloc, page, feature, key, asker)?;
        put(&mut self.documents, alloc, doc, (page, number))?;
        self.given.reserve(1)?;
        push_in(&mut self.pages, alloc, number, prompt)?;
        let given = Given {
            page,
            settled: false,
        };
        self.given.insert(number.get(), given)?;
        Ok(())
    }

    /// Settles the prompt, if it is the shown one of its page, and gives the requests that waited for it, in
    /// order of joining.
    ///
    /// Errors: those of `shown`, and `Memory` where memory wants.
    pub fn answer(&mut self, prompt: PromptNo) -> Result<Vec<DocRef>, AnswerFault>
        ensures requests { IfOk result (λ requests. option_map (λ p. p.waiting) (prompt_at self.old prompt) ≡ Some requests.items) }
        ensures ok { OnOk result (refusal self.old prompt ≡ None) }
        ensures settled { OnOk result (HasSettled self.old self.new prompt) }
        ensures err { IfErr result (λ fault. IsRefused self.old prompt fault × (self.new ≡ self.old)) }
    {
        let asked = self.shown(prompt)?;
        let page = asked.page;
        let Ok(requests) = asked.waiting.copied() else {
            return Err(AnswerFault::Memory);
        };
        self.settle(prompt, page);
        Ok(requests)
    }

    // Settles a pending prompt of the page.
    fn settle(&mut self, number: PromptNo, page: FrameNo)
        requires { given_of self.old number ≡ Some (record { page = page; settled = false }) }
        ensures { HasSettled self.old self.new number }
    {
        settle_in(&mut self.given, number);
        remove_in(&mut self.pages, page, number);
    }

    /// Drops the requests of a document. A prompt for which no other request waits is pending no longer, and
    /// never is again.
    pub fn gone(&mut self, doc: DocNo)
        ensures given { self.new.given ≡ self.old.given }
        ensures pending { (p : ℕ) → pending self.new p ≡ left_by doc (pending self.old p) }
    {
        let alloc = self.alloc;
        let places = take(&mut self.documents, alloc, doc.get());
        drop_all(&mut self.pages, &places, doc);
    }
}
