//! The bytes of an owner, read and written where they lie.

ghost use Rattle.std.specs.Prelude.{true, ◌≡◌, ◌≢◌, ◌+◌, ◌<◌, ◌≤◌, ℕ, length, OnOk};
ghost use Rattle.tq_host.specs.Calls.{HasCause, HasBytesAt, IsSameBut, IsWritten};
ghost use Rattle.tq_host.specs.Within.{Within, KeepsRest};
ghost use Rattle.tq_extent.specs.Pages.{HasPages};
ghost use Rattle.tq_extent.specs.Bytes.{byte_count, owned_bytes, byte_address, reaches, OnBytes, IsAny, IsQuiet, AllReach};

use crate::PageMap;
use crate::pages::CLUSTER_BYTES;
use tq_host::{Failed, Host};

impl PageMap {
    /// The byte of the device that is the owner's at this place.
    fn byte_address(&self, at: u64) -> u64
        requires { at < byte_count self.now }
        ensures address { result ≡ byte_address self.now at }
        ensures pages { HasPages self.now }
    {
        CLUSTER_BYTES * self.cluster(at / CLUSTER_BYTES) + at % CLUSTER_BYTES
    }

    /// How many of the `most` bytes from this place on lie behind one another on the device.
    fn run_length(&self, at: u64, most: u64) -> u64
        requires some { 1 ≤ most }
        requires within { at + most ≤ byte_count self.now }
        ensures some { 1 ≤ result }
        ensures most { result ≤ most }
        ensures run { (i : ℕ) → i < result → byte_address self.now (at + i) ≡ byte_address self.now at + i }
        ensures longest { result < most → byte_address self.now (at + result) ≢ byte_address self.now at + result }
    {
        let mut cluster = at / CLUSTER_BYTES;
        let mut count = CLUSTER_BYTES - at % CLUSTER_BYTES;
        while count < most && self.cluster(cluster) + 1 == self.cluster(cluster + 1) {
            cluster += 1;
            count += CLUSTER_BYTES;
        }
        count.min(most)
    }

    /// Fills `into` with the bytes of the owner from this place on. The device reaches to the end
    /// of the owner's clusters. Clusters that lie behind one another are read at once.
    pub fn read_at<H: Host>(
        &self,
        host: &mut H,
        dev: u8,
        at: u64,
        into: &mut [u8],
    ) -> Result<(), Failed>
        requires dev { dev < 8 }
        requires within { at + length into.old ≤ byte_count self.now }
        requires reach { H.tells.reads → reaches self.now ((H.view host.old).reads dev) ≡ true }
        ensures bytes { OnOk result (H.tells.reads → HasBytesAt at into.new (owned_bytes self.now ((H.view host.old).reads dev))) }
        ensures size { length into.new ≡ length into.old }
        ensures quiet { IsQuiet dev (H.view host.old) (H.view host.new) }
        ensures cause { HasCause (H.view host.old).faults (H.view host.new).faults result }
    {
        let mut done = 0;
        let mut place = at;
        while done < into.len() {
            let count = self.run_length(place, (into.len() - done) as u64);
            let run = &mut into[done..done + count as usize];
            host.read_at(dev, self.byte_address(place), run)?;
            done += count as usize;
            place += count;
        }
        Ok(())
    }

    /// Writes these bytes over those of the owner from this place on. The device reaches to the end
    /// of the owner's clusters. Clusters that lie behind one another are written at once. Nothing is
    /// durable before a sync. All else that is read stays, also where the call fails.
    pub fn write_at<H: Host>(
        &self,
        host: &mut H,
        dev: u8,
        at: u64,
        from: &[u8],
    ) -> Result<(), Failed>
        requires dev { dev < 8 }
        requires within { at + length from.now ≤ byte_count self.now }
        requires reach { H.tells.reads → reaches self.now ((H.view host.old).reads dev) ≡ true }
        ensures written { OnOk result (H.tells.reads → OnBytes self.now (IsWritten at from.now) ((H.view host.old).reads dev) ((H.view host.new).reads dev)) }
        ensures outside { H.tells.reads → OnBytes self.now (IsSameBut at (length from.now)) ((H.view host.old).reads dev) ((H.view host.new).reads dev) }

        // In each picture the bytes outside the range are those of one image from before, and so is all else of the device.
        ensures stop { AllReach dev self.now (H.view host.old)
            → Within dev (OnBytes self.now (IsSameBut at (length from.now))) IsAny (H.view host.old) (H.view host.new) }
        ensures rest { KeepsRest dev (H.view host.old) (H.view host.new) }
        ensures cause { HasCause (H.view host.old).faults (H.view host.new).faults result }
    {
        let mut done = 0;
        let mut place = at;
        while done < from.len() {
            let count = self.run_length(place, (from.len() - done) as u64);
            let run = &from[done..done + count as usize];
            host.write_at(dev, self.byte_address(place), run)?;
            done += count as usize;
            place += count;
        }
        Ok(())
    }
}
