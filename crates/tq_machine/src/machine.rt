//! The site, and its step for each request.

ghost use Rattle.std.specs.Prelude.{◌≡◌, ◌<◌, ◌≤◌, nat_lt, None, Some, IsSome, IfOk, IfNone, OnOk, OnErr, MatchOption, cond, length, map, option_copied, option_to_list, option_map, set, slice_index_or, slice_set};
ghost use Rattle.std.specs.List.{find, flat_map};
ghost use Rattle.tq_model.specs.Site.{Site, blank_site, durable, durable_space, has_name, on_spaces, capacity_of, present, space_named, spaces_on, volume_of};
ghost use Rattle.tq_model.specs.Step.{boot, call_step, create_device, create_queue, create_space, creation_refusal, dequeue, device_step, enqueue, erase_device, erasure_refusal, field_refused, list_device, new_volume, next_arrival, on_space, on_volume_refusal, others_created, ready, removal_refusal, remove_space, site_number, space_made, space_refusal, space_step, step, with_blank_device, with_new_device};
ghost use Rattle.tq_machine.specs.SpaceCalls.{IsReply, after_call, logged_outcome, outcome_of, space_name};
ghost use Rattle.tq_machine.specs.Fields.{HasFieldsWithin};
ghost use Rattle.tq_machine.specs.Tables.{device_spaces, entry_changed, entry_of, without_named};

use crate::device::CreatedDevice;
use crate::space_call::{DequeueByWords, EnqueueByWords, Reply, SpaceCall};
use std::alloc::{AllocError, Global};
use std::marker::Model;
use tq_model::{
    Answer, CallRequest, Capacity, Creation, DequeueWords, DeviceAnswer, DeviceRequest,
    EnqueueWords, Field, Identity, LEAST_CLUSTERS, LONGEST_BODY, Listing, MOST_CLUSTERS,
    MOST_MEMORY, MOST_MESSAGES, MOST_PAGES, MOST_QUEUES, MOST_TRANSACTIONS, QueueCreation,
    Readiness, Request, SpaceAnswer, SpaceCreation, SpaceRemoval, SpaceRequest,
};
use tq_types::{Arrival, Name};

const LAST_SITE: u64 = 4294967295;

/// The serial queue machine as a slow plain program. Clauses see its site.
#[derive(Drop)]
pub struct Machine {
    alloc: Global,
    identity: Option<Identity>,
    next: u32,
    clock: u64,
    devices: Vec<Option<CreatedDevice>>,
}

impl Model for Machine {
    ghost use Rattle.tq_model.specs.Site.{Site};

    ghost Value = { Site };

    ghost use Rattle.tq_machine.specs.Tables.{AreSound};

    ghost view = { λ m. record { identity = m.identity; next = m.next; clock = m.clock; devices = m.devices.items } };

    ghost invariant = { λ m. AreSound m.devices.items };
}

/// Where a space stands: its device, and its entry in the device's table.
#[derive(Clone, Copy)]
struct SpacePlace {
    dev: usize,
    entry: usize,
}

impl Machine {
    /// That many blank devices, 1 to 8, before line 0.
    pub fn new(alloc: Global, devices: u8) -> Result<Machine, AllocError>
        requires some { 1 ≤ devices }
        requires most { devices ≤ 8 }
        ensures { IfOk result (λ m. m ≡ blank_site devices) }
    {
        Ok(Machine {
            alloc,
            identity: None,
            next: 0,
            clock: 0,
            devices: blank_devices(alloc, devices)?,
        })
    }

    /// One step: the answer, and the site after it. After an `Err` the site is as it was.
    pub fn step(&mut self, request: &Request) -> Result<Answer, AllocError>
        requires { self.old.next < 4294967295 }
        ensures answer { IfOk result (λ a. a ≡ (step self.old request.now).answer) }
        ensures site { OnOk result (self.new ≡ (step self.old request.now).site) }
        ensures unchanged { OnErr result (self.new ≡ self.old) }
    {
        match request {
            Request::Nothing => Ok(Answer::Done),
            Request::Boot => Ok(self.boot()),
            Request::Bad(column) => Ok(Answer::Syntax(*column)),
            Request::TooLong => Ok(Answer::TooLong),
            Request::Device(request) => self.device_step(request),
            Request::Space(request) => self.space_step(request),
            Request::Call(request) => self.call_step(request),
        }
    }

    /// A crash and a boot: the next epoch, or damage where the epoch cannot be raised.
    fn boot(&mut self) -> Answer
        ensures answer { result ≡ (boot self.old).answer }
        ensures site { self.new ≡ (boot self.old).site }
    {
        self.crash();
        if let Some(identity) = self.identity {
            if identity.epoch == u32::MAX {
                return Answer::Damaged(0);
            }
            self.identity = Some(Identity {
                site: identity.site,
                epoch: identity.epoch + 1,
            });
        }
        self.ready()
    }

    /// Leaves what is there after a crash.
    fn crash(&mut self)
        ensures { self.new ≡ durable self.old }
    {
        self.next = 0;
        self.clock = 0;
        crash_all(&mut self.devices);
    }

    /// What a boot finds.
    fn ready(&self) -> Answer
        ensures { result ≡ ready self.now }
    {
        Answer::Ready(Readiness {
            identity: self.identity,
            spaces: count_spaces(&self.devices),
            in_doubt: 0,
        })
    }

    /// One step of what is asked of a device.
    fn device_step(&mut self, request: &DeviceRequest) -> Result<Answer, AllocError>
        ensures answer { IfOk result (λ a. a ≡ (device_step self.old request.now).answer) }
        ensures site { OnOk result (self.new ≡ (device_step self.old request.now).site) }
        ensures unchanged { OnErr result (self.new ≡ self.old) }
    {
        match request {
            DeviceRequest::Create(creation) => self.create_device(creation),
            DeviceRequest::Erase(dev) => Ok(self.erase_device(*dev)),
            DeviceRequest::List(dev) => Ok(Answer::Device(self.list_device(*dev)?)),
        }
    }

    /// Makes a device, or says the first reason not to.
    fn create_device(&mut self, creation: &Creation) -> Result<Answer, AllocError>
        ensures answer { IfOk result (λ a. a ≡ (create_device creation.now self.old).answer) }
        ensures site { OnOk result (self.new ≡ (create_device creation.now self.old).site) }
        ensures unchanged { OnErr result (self.new ≡ self.old) }
    {
        match self.creation_refusal(creation) {
            Some(refusal) => Ok(Answer::Device(refusal)),
            None => Ok(Answer::Device(DeviceAnswer::Created(self.make_device(creation)?))),
        }
    }

    /// The first reason not to make a device.
    fn creation_refusal(&self, creation: &Creation) -> Option<DeviceAnswer>
        ensures { result ≡ creation_refusal creation.now self.now }
    {
        if !self.has_device(creation.dev) {
            return Some(DeviceAnswer::NoDevice);
        }
        if self.volume(creation.dev).is_some() {
            return Some(DeviceAnswer::Exists);
        }
        if creation.dev != 0 && self.identity.is_none() {
            return Some(DeviceAnswer::NoSite);
        }
        if creation.clusters < u64::from(LEAST_CLUSTERS)
            || creation.clusters > u64::from(MOST_CLUSTERS)
        {
            return Some(DeviceAnswer::Range(Field::Clusters));
        }
        let site = creation.site.unwrap_or(1);
        if site < 1 || site > LAST_SITE {
            return Some(DeviceAnswer::Range(Field::Site));
        }
        None
    }

    /// Makes a device anew; with device 0 the site begins.
    fn make_device(&mut self, creation: &Creation) -> Result<Capacity, AllocError>
        requires { creation_refusal creation.now self.old ≡ None }
        ensures capacity { IfOk result (λ c. c ≡ capacity_of (new_volume creation.now.clusters)) }
        ensures site { OnOk result (self.new ≡ with_new_device creation.now self.old) }
        ensures unchanged { OnErr result (self.new ≡ self.old) }
    {
        let device = CreatedDevice::new(self.alloc, creation.clusters as u32)?;
        let capacity = device.capacity();
        self.devices[usize::from(creation.dev)] = Some(device);
        if creation.dev == 0 {
            self.identity = Some(Identity {
                site: creation.site.unwrap_or(1) as u32,
                epoch: 1,
            });
            self.next = 0;
        }
        Ok(capacity)
    }

    /// Makes a device blank, or says the first reason not to.
    fn erase_device(&mut self, dev: u8) -> Answer
        ensures answer { result ≡ (erase_device dev self.old).answer }
        ensures site { self.new ≡ (erase_device dev self.old).site }
    {
        match self.erasure_refusal(dev) {
            Some(refusal) => Answer::Device(refusal),
            None => {
                self.blank_device(dev);
                Answer::Done
            }
        }
    }

    /// The first reason not to make a device blank.
    fn erasure_refusal(&self, dev: u8) -> Option<DeviceAnswer>
        ensures { result ≡ erasure_refusal dev self.now }
    {
        if !self.has_device(dev) {
            return Some(DeviceAnswer::NoDevice);
        }
        let Some(device) = self.volume(dev) else {
            return Some(DeviceAnswer::NotCreated);
        };
        let spaces = device.space_count() as u32;
        if spaces > 0 {
            return Some(DeviceAnswer::NotEmpty(spaces));
        }
        let others = self.others_created(dev);
        if dev == 0 && others > 0 {
            return Some(DeviceAnswer::SiteInUse(others));
        }
        None
    }

    /// How many devices beside that one are created.
    fn others_created(&self, dev: u8) -> u32
        ensures { result ≡ others_created dev self.now }
    {
        count_others(&self.devices, usize::from(dev))
    }

    /// Makes a device blank; with device 0 the site ends.
    fn blank_device(&mut self, dev: u8)
        requires { dev < length self.old.devices }
        ensures { self.new ≡ with_blank_device dev self.old }
    {
        self.devices[usize::from(dev)] = None;
        if dev == 0 {
            self.identity = None;
            self.next = 0;
        }
    }

    /// What a device answers when it is listed.
    fn list_device(&self, dev: u8) -> Result<DeviceAnswer, AllocError>
        ensures { IfOk result (λ a. a ≡ list_device dev self.now) }
    {
        if !self.has_device(dev) {
            return Ok(DeviceAnswer::NoDevice);
        }
        match self.volume(dev) {
            None => Ok(DeviceAnswer::NotCreated),
            Some(device) => Ok(DeviceAnswer::Listed(Listing {
                capacity: device.capacity(),
                spaces: device.lines(self.alloc)?,
            })),
        }
    }

    /// Whether there is a word for that device.
    fn has_device(&self, dev: u8) -> bool
        ensures { result ≡ nat_lt dev (length self.now.devices) }
    {
        usize::from(dev) < self.devices.len()
    }

    /// The device with that number, or None where it is blank or there is none.
    fn volume(&self, dev: u8) -> Option<&CreatedDevice>
        ensures { option_copied result ≡ volume_of self.now dev }
    {
        match self.devices.get(usize::from(dev)) {
            Some(Some(device)) => Some(device),
            _ => None,
        }
    }

    /// One step of what is asked of spaces and their queues.
    fn space_step(&mut self, request: &SpaceRequest) -> Result<Answer, AllocError>
        requires { self.old.next < 4294967295 }
        ensures answer { IfOk result (λ a. a ≡ (space_step self.old request.now).answer) }
        ensures site { OnOk result (self.new ≡ (space_step self.old request.now).site) }
        ensures unchanged { OnErr result (self.new ≡ self.old) }
    {
        match request {
            SpaceRequest::Create(creation) => self.create_space(creation),
            SpaceRequest::Remove(removal) => Ok(self.remove_space(removal)),
            SpaceRequest::CreateQueue(creation) => self.create_queue(creation),
        }
    }

    fn create_queue(&mut self, creation: &QueueCreation) -> Result<Answer, AllocError>
        requires { self.old.next < 4294967295 }
        ensures answer { IfOk result (λ a. a ≡ (create_queue creation.now self.old).answer) }
        ensures site { OnOk result (self.new ≡ (create_queue creation.now self.old).site) }
        ensures unchanged { OnErr result (self.new ≡ self.old) }
    {
        self.call(&SpaceCall::Queue(creation))
    }

    /// Makes a space, or says the first reason not to.
    fn create_space(&mut self, creation: &SpaceCreation) -> Result<Answer, AllocError>
        ensures answer { IfOk result (λ a. a ≡ (create_space creation.now self.old).answer) }
        ensures site { OnOk result (self.new ≡ (create_space creation.now self.old).site) }
        ensures unchanged { OnErr result (self.new ≡ self.old) }
    {
        match self.space_refusal(creation) {
            Some(refusal) => Ok(refusal),
            None => self.make_space(creation),
        }
    }

    /// The first reason not to make a space.
    fn space_refusal(&self, creation: &SpaceCreation) -> Option<Answer>
        ensures { result ≡ space_refusal creation.now self.now }
    {
        if !self.has_device(creation.dev) {
            return Some(Answer::Device(DeviceAnswer::NoDevice));
        }
        match self.volume(creation.dev) {
            None => Some(Answer::Device(DeviceAnswer::NotCreated)),
            Some(device) => self.refusal_on(device, creation),
        }
    }

    /// The first reason not to make a space on a device that is there.
    fn refusal_on(&self, device: &CreatedDevice, creation: &SpaceCreation) -> Option<Answer>
        ensures { result ≡ on_volume_refusal creation.now self.now (Some device.now) }
    {
        if self.place_of(&creation.name).is_some() {
            return Some(Answer::Space(SpaceAnswer::Taken));
        }
        match field_refused(creation) {
            Some(field) => Some(Answer::Device(DeviceAnswer::Range(field))),
            None => device.pages_refusal(creation),
        }
    }

    /// Makes a space.
    fn make_space(&mut self, creation: &SpaceCreation) -> Result<Answer, AllocError>
        requires { space_refusal creation.now self.old ≡ None }
        ensures answer { IfOk result (λ a. a ≡ (space_made creation.now self.old (volume_of self.old creation.now.dev)).answer) }
        ensures site { OnOk result (self.new ≡ (space_made creation.now self.old (volume_of self.old creation.now.dev)).site) }
        ensures unchanged { OnErr result (self.new ≡ self.old) }
    {
        let site = self.site_number();
        match &mut self.devices[usize::from(creation.dev)] {
            Some(device) => device.make_space(self.alloc, creation, site),
            None => unreachable!(),
        }
    }

    /// Takes out a space, or says the first reason not to.
    fn remove_space(&mut self, removal: &SpaceRemoval) -> Answer
        ensures answer { result ≡ (remove_space removal.now self.old).answer }
        ensures site { self.new ≡ (remove_space removal.now self.old).site }
    {
        let Some(place) = self.place_of(&removal.space) else {
            return Answer::NoEntry;
        };
        match removal_refusal_at(&self.devices, place, removal.force) {
            Some(refusal) => refusal,
            None => {
                remove_all(&mut self.devices, &removal.space);
                Answer::Done
            }
        }
    }

    fn site_number(&self) -> u32
        ensures { result ≡ site_number self.now }
    {
        match self.identity {
            Some(identity) => identity.site,
            None => 0,
        }
    }

    /// One step of what is asked of a queue.
    fn call_step(&mut self, request: &CallRequest) -> Result<Answer, AllocError>
        requires { self.old.next < 4294967295 }
        ensures answer { IfOk result (λ a. a ≡ (call_step self.old request.now).answer) }
        ensures site { OnOk result (self.new ≡ (call_step self.old request.now).site) }
        ensures unchanged { OnErr result (self.new ≡ self.old) }
    {
        match request {
            CallRequest::Enqueue(session, words) => self.enqueue(*session, words),
            CallRequest::Dequeue(session, words) => self.dequeue(*session, words),
        }
    }

    fn enqueue(&mut self, session: u8, words: &EnqueueWords) -> Result<Answer, AllocError>
        requires { self.old.next < 4294967295 }
        ensures answer { IfOk result (λ a. a ≡ (enqueue session words.now self.old).answer) }
        ensures site { OnOk result (self.new ≡ (enqueue session words.now self.old).site) }
        ensures unchanged { OnErr result (self.new ≡ self.old) }
    {
        let size = words.body.len();
        if size > LONGEST_BODY {
            return Ok(Answer::Invalid(size as u64));
        }
        let ask = EnqueueByWords {
            words,
            clock: self.clock,
            next: self.next_arrival(),
        };
        self.call(&SpaceCall::Enqueue(ask))
    }

    fn dequeue(&mut self, session: u8, words: &DequeueWords) -> Result<Answer, AllocError>
        requires { self.old.next < 4294967295 }
        ensures answer { IfOk result (λ a. a ≡ (dequeue session words.now self.old).answer) }
        ensures site { OnOk result (self.new ≡ (dequeue session words.now self.old).site) }
        ensures unchanged { OnErr result (self.new ≡ self.old) }
    {
        let ask = DequeueByWords {
            words,
            clock: self.clock,
        };
        self.call(&SpaceCall::Dequeue(ask))
    }

    /// Does a call on a space that goes by its name.
    fn call(&mut self, call: &SpaceCall) -> Result<Answer, AllocError>
        requires { self.old.next < 4294967295 }
        ensures answer { IfOk result (λ a. a ≡ (on_space (space_name call.now) (outcome_of call.now) self.old).answer) }
        ensures site { OnOk result (self.new ≡ (on_space (space_name call.now) (outcome_of call.now) self.old).site) }
        ensures unchanged { OnErr result (self.new ≡ self.old) }
    {
        let Some(place) = self.place_of(call.space()) else {
            return Ok(Answer::NoEntry);
        };
        let reply = call_at(&mut self.devices, place, call)?;
        self.next += reply.numbers;
        Ok(reply.answer)
    }

    /// The place of the space of that name.
    fn place_of(&self, name: &Name) -> Option<SpacePlace>
        ensures { MatchOption result (space_named name.now self.now ≡ None)
            (λ place. (space_named name.now self.now ≡ entry_of (slice_index_or self.now.devices place.dev None) place.entry)
            × IsSome (space_named name.now self.now)) }
    {
        place_in(&self.devices, name)
    }

    /// The arrival of the next message.
    fn next_arrival(&self) -> Arrival
        ensures { result ≡ next_arrival self.now }
    {
        let epoch = match self.identity {
            Some(identity) => identity.epoch,
            None => 0,
        };
        Arrival {
            epoch,
            number: self.next,
        }
    }
}

/// The first field that is out of its limit.
fn field_refused(creation: &SpaceCreation) -> Option<Field>
    ensures field { result ≡ field_refused creation.now }
    ensures within { IfNone result (HasFieldsWithin creation.now) }
{
    if creation.pages < 1 || creation.pages > u64::from(MOST_PAGES) {
        return Some(Field::Pages);
    }
    if creation.queues < 1 || creation.queues > u64::from(MOST_QUEUES) {
        return Some(Field::Queues);
    }
    if creation.transactions < 1 || creation.transactions > u64::from(MOST_TRANSACTIONS) {
        return Some(Field::Transactions);
    }
    if creation.messages < 1 || creation.messages > u64::from(MOST_MESSAGES) {
        return Some(Field::Messages);
    }
    if creation.memory > MOST_MEMORY {
        return Some(Field::Memory);
    }
    None
}

fn blank_devices(alloc: Global, devices: u8) -> Result<Vec<Option<CreatedDevice>>, AllocError>
    ensures { IfOk result (λ v. v.items ≡ (blank_site devices).devices) }
{
    let mut blank = Vec::new(alloc);
    for _at in 0..devices {
        blank.push(None)?;
    }
    Ok(blank)
}

fn crash_all(devices: &mut [Option<CreatedDevice>])
    ensures { devices.new ≡ map (option_map (on_spaces durable_space)) devices.old }
{
    for at in 0..devices.len() {
        crash_device(&mut devices[at]);
    }
}

fn crash_device(device: &mut Option<CreatedDevice>)
    ensures { device.new ≡ option_map (on_spaces durable_space) device.old }
{
    if let Some(device) = device {
        device.crash();
    }
}

/// Takes out each space of that name.
fn remove_all(devices: &mut [Option<CreatedDevice>], name: &Name)
    ensures { devices.new ≡ map (option_map (without_named name.now)) devices.old }
{
    for at in 0..devices.len() {
        remove_in(&mut devices[at], name);
    }
}

fn remove_in(device: &mut Option<CreatedDevice>, name: &Name)
    ensures { device.new ≡ option_map (without_named name.now) device.old }
{
    if let Some(device) = device {
        device.remove(name);
    }
}

/// How many devices beside that one are created.
fn count_others(devices: &[Option<CreatedDevice>], dev: usize) -> u32
    requires { length devices.now ≤ 8 }
    ensures { result ≡ length (present (set devices.now dev None)) }
{
    let mut count = 0;
    for at in 0..devices.len() {
        count += count_other(&devices[at], at == dev);
    }
    count
}

/// One for a device that is created, if it is not the one that does not count.
fn count_other(device: &Option<CreatedDevice>, is_it: bool) -> u32
    ensures count { result ≡ length (option_to_list (cond is_it None device.now)) }
    ensures most { result ≤ 1 }
{
    if is_it {
        return 0;
    }
    match device {
        Some(_) => 1,
        None => 0,
    }
}

fn count_spaces(devices: &[Option<CreatedDevice>]) -> u32
    requires { length devices.now ≤ 8 }
    ensures { result ≡ length (flat_map spaces_on (present devices.now)) }
{
    let mut count = 0;
    for device in devices {
        count += count_in(device);
    }
    count
}

fn count_in(device: &Option<CreatedDevice>) -> u32
    ensures count { result ≡ length (device_spaces device.now) }
    ensures most { result ≤ 16 }
{
    match device {
        Some(device) => device.space_count() as u32,
        None => 0,
    }
}

/// The place of the first space of that name.
fn place_in(devices: &[Option<CreatedDevice>], name: &Name) -> Option<SpacePlace>
    ensures { MatchOption result (find (has_name name.now) (flat_map spaces_on (present devices.now)) ≡ None)
        (λ place. (find (has_name name.now) (flat_map spaces_on (present devices.now)) ≡ entry_of
        (slice_index_or devices.now place.dev None) place.entry) × IsSome (find (has_name name.now) (flat_map spaces_on (present devices.now)))) }
{
    for (dev, device) in devices.iter().enumerate() {
        if let Some(entry) = entry_in(device, name) {
            return Some(SpacePlace { dev, entry });
        }
    }
    None
}

fn entry_in(device: &Option<CreatedDevice>, name: &Name) -> Option<usize>
    ensures { MatchOption result (find (has_name name.now) (device_spaces device.now) ≡ None)
        (λ e. (find (has_name name.now) (device_spaces device.now) ≡ entry_of device.now e) × IsSome (entry_of device.now e)) }
{
    match device {
        Some(device) => device.entry_named(name),
        None => None,
    }
}

/// Does a call on the space of a place. After an `Err` the devices are as they were.
fn call_at(
    devices: &mut [Option<CreatedDevice>],
    place: SpacePlace,
    call: &SpaceCall,
) -> Result<Reply, AllocError>
    requires { IsSome (entry_of (slice_index_or devices.old place.dev None) place.entry) }
    ensures reply { IfOk result (λ reply. MatchOption (entry_of (slice_index_or devices.old place.dev None) place.entry) ⊥
        (λ p. IsReply (logged_outcome call.now p) reply)) }
    ensures devices { OnOk result (devices.new ≡ slice_set devices.old place.dev
        (option_map (entry_changed place.entry (after_call call.now)) (slice_index_or devices.old place.dev None))) }
    ensures unchanged { OnErr result (devices.new ≡ devices.old) }
{
    match &mut devices[place.dev] {
        Some(device) => device.call(place.entry, call),
        None => unreachable!(),
    }
}

/// Why the space of a place may not be removed, if it may not.
fn removal_refusal_at(
    devices: &[Option<CreatedDevice>],
    place: SpacePlace,
    force: bool,
) -> Option<Answer>
    requires { IsSome (entry_of (slice_index_or devices.now place.dev None) place.entry) }
    ensures { (s : Site) → MatchOption (entry_of (slice_index_or devices.now place.dev None) place.entry) ⊥ (λ p. result ≡ removal_refusal force s p) }
{
    match &devices[place.dev] {
        Some(device) => device.removal_refusal(place.entry, force),
        None => unreachable!(),
    }
}
