//! Gated logs over a host in memory.

ghost use Rattle.std.specs.Prelude.{true, ◌≡◌, ◌+◌, ◌∷◌, [], ℕ, List, length, IfOk};
ghost use Rattle.tq_host.specs.Memory.{mem_view_of};
ghost use Rattle.tq_model.specs.Site.{header_clusters, numbers_from};
ghost use Rattle.tq_extent.specs.Bytes.{reaches};
ghost use Rattle.tq_gate.specs.Layout.{clusters_of, base_length, has_two_areas, IsLaidOut};
ghost use Rattle.tq_gate.specs.Log.{layout_of, FitsIn};

use std::alloc::{AllocError, Global};
use std::process::Abort;
use std::test::Fail;
use tq_extent::PageMap;
use tq_gate::{Areas, GateError, GateLog, Layout, Loaded};
use tq_host::MemHost;
use tq_model::Extent;

// A base of one page and a log of one page, from the second page of the header on.
fn one_area() -> Layout
    ensures clusters { clusters_of result ≡ numbers_from 0 header_clusters }
    ensures laid_out { IsLaidOut result }
    ensures dev { result.dev ≡ 1 }
{
    Layout {
        dev: 1,
        map: PageMap::header(),
        areas: Areas::One,
        first: 1,
        base_pages: 1,
        log_pages: 1,
    }
}

// The same in two areas, with the selector in the first page.
fn two_areas() -> Layout
    ensures clusters { clusters_of result ≡ numbers_from 0 header_clusters }
    ensures laid_out { IsLaidOut result }
    ensures dev { result.dev ≡ 1 }
    ensures two { has_two_areas result.areas ≡ true }
    ensures base { base_length result ≡ 1024 }
{
    Layout {
        dev: 1,
        map: PageMap::header(),
        areas: Areas::Two { selector: 512 },
        first: 1,
        base_pages: 1,
        log_pages: 1,
    }
}

// Two areas of the clusters 5 and 4, with a log of two pages: that of area A begins in cluster 5 and
// ends in cluster 4.
fn areas_over_a_gap(alloc: Global) -> Result<Layout, AllocError>
    ensures clusters { IfOk result (λ layout. clusters_of layout ≡ 5 ∷ 4 ∷ []) }
    ensures laid_out { IfOk result IsLaidOut }
    ensures dev { IfOk result (λ layout. layout.dev ≡ 1) }
    ensures two { IfOk result (λ layout. has_two_areas layout.areas ≡ true) }
    ensures base { IfOk result (λ layout. base_length layout ≡ 1024) }
{
    let clusters = [Extent { first: 5, count: 1 }, Extent { first: 4, count: 1 }];
    Ok(Layout {
        dev: 1,
        map: PageMap::of(alloc, &clusters)?,
        areas: Areas::Two { selector: 512 },
        first: 30,
        base_pages: 1,
        log_pages: 2,
    })
}

fn copied(alloc: Global, layout: &Layout) -> Result<Layout, AllocError>
    ensures { IfOk result (λ copy. copy ≡ layout.now) }
{
    Ok(Layout {
        dev: layout.dev,
        map: layout.map.copy(alloc)?,
        areas: layout.areas,
        first: layout.first,
        base_pages: layout.base_pages,
        log_pages: layout.log_pages,
    })
}

// What a load of this image answers.
fn load_image(alloc: Global, layout: Layout, image: &[u8]) -> Result<Loaded, GateError>
    requires laid_out { IsLaidOut layout }
    requires dev { layout.dev ≡ 1 }
    requires reach { reaches (clusters_of layout) image.now ≡ true }
{
    let mut host = MemHost::new(alloc, b"".as_slice(), 1)?;
    host.set_device(1, image)?;
    GateLog::load(alloc, &mut host, layout)
}

// A device of six clusters of zeros.
fn blank(alloc: Global) -> Result<Vec<u8>, Fail>
    ensures { IfOk result (λ v. length v.items ≡ 196608) }
{
    Ok(vec![in alloc; 0u8; 196_608]?)
}

// A frame with this payload, and bytes around it that no log may show.
fn framed(alloc: Global, payload: &[u8]) -> Result<Vec<u8>, Fail>
    ensures { IfOk result (λ v. length v.items ≡ length payload.now + 6) }
{
    let mut frame = Vec::from_slice(alloc, b"OOOOO")?;
    frame.extend_from_slice(payload)?;
    frame.push(b'O')?;
    Ok(frame)
}

// A log on a host whose device reaches to the end of its owner.
#[derive(Drop)]
struct Bench {
    host: MemHost,
    log: GateLog,
    ghost laid_out: { IsLaidOut (layout_of log) },
    ghost dev: { (layout_of log).dev ≡ 1 },
    ghost reach: { reaches (clusters_of (layout_of log)) ((mem_view_of host).reads 1) ≡ true },
}

impl Bench {
    fn new(alloc: Global, layout: Layout, image: &[u8]) -> Result<Bench, Fail>
        requires laid_out { IsLaidOut layout }
        requires dev { layout.dev ≡ 1 }
        requires reach { reaches (clusters_of layout) image.now ≡ true }
        ensures layout { IfOk result (λ bench. layout_of bench.log ≡ layout) }
    {
        let mut host = MemHost::new(alloc, b"".as_slice(), 1)?;
        host.set_device(1, image)?;
        let log = GateLog::load(alloc, &mut host, layout)?.log;
        Ok(Bench { host, log })
    }

    // With one payload more.
    fn add(self, alloc: Global, payload: &[u8]) -> Result<Bench, Fail>
        requires { FitsIn self.log (length payload.now) }
        ensures layout { IfOk result (λ bench. layout_of bench.log ≡ layout_of self.log) }
    {
        let mut frame = framed(alloc, payload)?;
        let Bench { mut host, mut log } = self;
        log.append(&mut host, &mut frame)?;
        Ok(Bench { host, log })
    }

    // With this base, and no payload.
    fn renew(self, base: &[u8]) -> Result<Bench, Fail>
        requires two { has_two_areas (layout_of self.log).areas ≡ true }
        requires base { length base.now ≡ base_length (layout_of self.log) }
        ensures layout { IfOk result (λ bench. layout_of bench.log ≡ layout_of self.log) }
    {
        let Bench { mut host, mut log } = self;
        log.replace(&mut host, base)?;
        Ok(Bench { host, log })
    }

    // What a load of the device answers.
    fn reload(&self, alloc: Global) -> Result<Loaded, GateError> {
        let layout = copied(alloc, self.log.layout())?;
        load_image(alloc, layout, self.host.image(1))
    }
}

#[test]
fn a_blank_log_is_empty(rt: HostRuntime) -> Result<(), Fail> {
    let alloc = rt.alloc();
    let image = blank(alloc)?;
    let one = load_image(alloc, one_area(), &image)?;
    assert_eq!(rt;
        (one.payloads.len(), one.base.len(), one.log.free()),
        (0, 1024, 1024)
    );
    let two = load_image(alloc, two_areas(), &image)?;
    assert_eq!(rt;
        (two.payloads.len(), two.base.len(), two.log.free()),
        (0, 1024, 1024)
    );
    let over = load_image(alloc, areas_over_a_gap(alloc)?, &image)?;
    assert_eq!(rt;
        (over.payloads.len(), over.base.len(), over.log.free()),
        (0, 1024, 2048)
    );
    Ok(())
}

// The log is full after twenty payloads of 46 bytes.
#[test]
fn twenty_payloads_fill_a_log(rt: HostRuntime) -> Result<(), Fail> {
    let alloc = rt.alloc();
    let mut bench = Bench::new(alloc, two_areas(), &blank(alloc)?)?;
    for count in 0..20u8 {
        assert!(rt; bench.log.fits(46));
        let payload = [count; 46];
        bench = bench.add(alloc, &payload)?;
        let loaded = bench.reload(alloc)?;
        assert_eq!(rt; loaded.payloads.len(), usize::from(count) + 1);
        for (index, found) in loaded.payloads.iter().enumerate() {
            assert!(rt; found.len() == 46 && found[45] as usize == index);
        }
        assert_eq!(rt; loaded.log.free(), bench.log.free());
    }
    assert!(rt; !bench.log.fits(0));
    Ok(())
}

#[test]
fn a_payload_may_have_no_bytes(rt: HostRuntime) -> Result<(), Fail> {
    let alloc = rt.alloc();
    let bench = Bench::new(alloc, one_area(), &blank(alloc)?)?;
    assert!(rt; bench.log.fits(0));
    let bench = bench.add(alloc, &[])?;
    let loaded = bench.reload(alloc)?;
    assert_eq!(rt; loaded.payloads.len(), 1);
    assert_eq!(rt; loaded.payloads[0].len(), 0);
    assert_eq!(rt; bench.log.free(), 1019);
    Ok(())
}

// An open gate at each of the last places, behind a payload that ends there.
#[test]
fn a_gate_at_the_end_is_damage(rt: HostRuntime) -> Result<(), Fail> {
    let alloc = rt.alloc();
    for place in 1018..1024usize {
        let mut image = blank(alloc)?;
        image[2048] = 0x4F;
        image[2051] = ((place - 5) / 256) as u8;
        image[2052] = ((place - 5) % 256) as u8;
        image[2048 + place] = 0x4F;
        let at = 2048 + place as u64;
        let expected = if place == 1018 {
            Ok(2)
        } else {
            Err(GateError::Damaged { at })
        };
        let loaded = load_image(alloc, one_area(), &image);
        assert_eq!(rt; loaded.map(|loaded| loaded.payloads.len()), expected);
    }
    Ok(())
}

// A payload over both clusters: its bytes from the 1,019th on lie in cluster 4.
#[test]
fn a_payload_goes_on_in_the_next_cluster(rt: HostRuntime) -> Result<(), Fail> {
    let alloc = rt.alloc();
    let mut payload = [1; 1500];
    payload[1018] = 2;
    payload[1019] = 3;
    let bench = Bench::new(alloc, areas_over_a_gap(alloc)?, &blank(alloc)?)?;
    assert!(rt; bench.log.fits(1500));
    let bench = bench.add(alloc, &payload)?;
    let image = bench.host.image(1);
    assert_eq!(rt;
        (image.get(195_584), image.get(196_607)),
        (Some(&0x4F), Some(&2))
    );
    assert_eq!(rt;
        (image.get(131_072), image.get(131_552)),
        (Some(&3), Some(&1))
    );
    let loaded = bench.reload(alloc)?;
    assert_eq!(rt; loaded.payloads.len(), 1);
    assert_eq!(rt; loaded.payloads[0].as_slice(), payload.as_slice());
    Ok(())
}

// A payload and then this base on a log of two areas, where the selector's byte is this one.
fn check_base(
    rt: &impl Abort,
    alloc: Global,
    bench: Bench,
    turn: u8,
    selector: usize,
) -> Result<Bench, Fail>
    requires two { has_two_areas (layout_of bench.log).areas ≡ true }
    requires base { base_length (layout_of bench.log) ≡ 1024 }
    ensures two { IfOk result (λ after. has_two_areas (layout_of after.log).areas ≡ true) }
    ensures base { IfOk result (λ after. base_length (layout_of after.log) ≡ 1024) }
{
    assert!(rt; bench.log.fits(3));
    let bench = bench.add(alloc, &[turn; 3])?;
    let bench = bench.renew(&[turn; 1024])?;
    let loaded = bench.reload(alloc)?;
    assert_eq!(rt; loaded.base.as_slice(), [turn; 1024].as_slice());
    assert_eq!(rt; loaded.payloads.len(), 0);
    assert_eq!(rt; loaded.log.free(), bench.log.free());
    assert_eq!(rt; bench.host.image(1).get(selector), Some(&(turn % 2)));
    Ok(bench)
}

// A base in each area in turn, with a payload behind it.
fn check_bases(rt: &impl Abort, alloc: Global, layout: Layout, selector: usize) -> Result<(), Fail>
    requires laid_out { IsLaidOut layout }
    requires dev { layout.dev ≡ 1 }
    requires reach { (image : List ℕ) → length image ≡ 196608 → reaches (clusters_of layout) image ≡ true }
    requires two { has_two_areas layout.areas ≡ true }
    requires base { base_length layout ≡ 1024 }
{
    let bench = Bench::new(alloc, layout, &blank(alloc)?)?;
    let bench = check_base(rt, alloc, bench, 1, selector)?;
    let bench = check_base(rt, alloc, bench, 2, selector)?;
    let bench = check_base(rt, alloc, bench, 3, selector)?;
    check_base(rt, alloc, bench, 4, selector)?;
    Ok(())
}

#[test]
fn bases_take_turns(rt: HostRuntime) -> Result<(), Fail> {
    let alloc = rt.alloc();
    check_bases(&rt, alloc, two_areas(), 512)?;
    check_bases(&rt, alloc, areas_over_a_gap(alloc)?, 164_352)?;
    Ok(())
}

// What a load of an image of the two areas finds: how many payloads, and the first byte of the base.
fn found(alloc: Global, image: &[u8]) -> Result<(usize, u8), Fail>
    requires { length image.now ≡ 196608 }
{
    let loaded = load_image(alloc, two_areas(), image)?;
    let first = loaded.base.first().copied().unwrap_or(255);
    Ok((loaded.payloads.len(), first))
}

// Whether an append answers Ok whose call of this number fails, and what the device reads then.
fn append_failing(alloc: Global, call: u64) -> Result<(bool, Vec<u8>), Fail> {
    let Bench { mut host, mut log } = Bench::new(alloc, two_areas(), &blank(alloc)?)?;
    if !log.fits(2) || call > 100 {
        return Ok((false, Vec::new(alloc)));
    }
    // a load makes three calls
    host.fail_at(3 + call)?;
    let mut frame = *b".....ab.";
    let answered = log.append(&mut host, &mut frame).is_ok();
    Ok((answered, host.image(1).to_vec(alloc)?))
}

#[test]
fn an_append_that_fails_leaves_the_old_payloads_or_the_new(rt: HostRuntime) -> Result<(), Fail> {
    let alloc = rt.alloc();
    let expected = [(false, 0), (false, 0), (false, 0), (false, 1), (true, 1)];
    for (call, &(answered, count)) in expected.iter().enumerate() {
        let (done, image) = append_failing(alloc, call as u64)?;
        assert_eq!(rt; image.len(), 196_608);
        assert_eq!(rt; done, answered);
        assert_eq!(rt; found(alloc, &image)?, (count, 0));
    }
    Ok(())
}

// The same of a new base, behind one payload.
fn replace_failing(alloc: Global, call: u64) -> Result<(bool, Vec<u8>), Fail> {
    let bench = Bench::new(alloc, two_areas(), &blank(alloc)?)?;
    if !bench.log.fits(3) || call > 100 {
        return Ok((false, Vec::new(alloc)));
    }
    let Bench { mut host, mut log } = bench.add(alloc, b"old")?;
    // a load makes three calls, and an append four
    host.fail_at(7 + call)?;
    let answered = log.replace(&mut host, &[1; 1024]).is_ok();
    Ok((answered, host.image(1).to_vec(alloc)?))
}

#[test]
fn a_base_that_fails_leaves_the_old_content_or_the_new(rt: HostRuntime) -> Result<(), Fail> {
    let alloc = rt.alloc();
    let expected = [
        (false, (1, 0)),
        (false, (1, 0)),
        (false, (1, 0)),
        (false, (1, 0)),
        (false, (0, 1)),
        (true, (0, 1)),
    ];
    for (call, &(answered, content)) in expected.iter().enumerate() {
        let (done, image) = replace_failing(alloc, call as u64)?;
        assert_eq!(rt; image.len(), 196_608);
        assert_eq!(rt; done, answered);
        assert_eq!(rt; found(alloc, &image)?, content);
    }
    Ok(())
}
