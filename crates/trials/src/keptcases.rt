//! Channels that cannot be let go: whatever holds them has to hand them back.
use crate::crossings::{follow, opening};
use channel::{Channel, Full, Poll, Used};
use channels::{Hop, Rain, Store};
use link::Link;
use loads::{EmptyLoad, Frame};

/// A store without `Drop`: a value of it that is neither returned nor taken apart is refused by the compiler.
pub struct Kept {
    pub store: Store<EmptyLoad>,
}

impl Channel<EmptyLoad> for Kept {
    ghost waiting = { λ kept. kept.store };

    fn put(&mut self, frame: &Frame<EmptyLoad>) -> Result<(), Full> {
        self.store.put(frame)
    }

    fn poll(&mut self) -> Poll<EmptyLoad> {
        self.store.poll()
    }

    fn holds(&self) -> bool {
        self.store.holds()
    }
}

/// An empty one.
pub fn make_kept() -> Kept {
    Kept {
        store: Store::new(),
    }
}

// Takes both apart, and gives the store of near.
fn near_of(hop: Hop<Kept, Kept>) -> Store<EmptyLoad> {
    let (near, far) = hop.into_parts();
    let Kept { store: _ } = far;
    let Kept { store } = near;
    store
}

#[test]
fn a_rain_over_a_hop_hands_its_channels_back(rt: HostRuntime) {
    let frame = opening(EmptyLoad);
    let mut rain = Rain::new(Hop::new(make_kept(), make_kept()), &[1]).unwrap();
    follow(&rt, &mut rain, &[(Used::Put(frame, Ok(())), true)]);
    let mut store = near_of(rain.into_below());
    follow(
        &rt,
        &mut store,
        &[(Used::Poll(Poll::Arrived(frame)), false)],
    );
}

#[test]
fn a_refused_rain_hands_its_channel_back(rt: HostRuntime) {
    let mut hop = Hop::new(make_kept(), make_kept());
    let frame = opening(EmptyLoad);
    follow(&rt, &mut hop, &[(Used::Put(frame, Ok(())), true)]);
    let refused = Rain::new(hop, &[3]).unwrap_err();
    let mut store = near_of(refused.below);
    follow(
        &rt,
        &mut store,
        &[(Used::Poll(Poll::Arrived(frame)), false)],
    );
}

#[test]
fn a_link_hands_its_channels_back(rt: HostRuntime) {
    let mut link = Link::<EmptyLoad, Kept, Kept>::new(make_kept(), make_kept());
    assert_eq!(rt; link.join(0), Ok(()));
    let (to_hut, back) = link.into_parts();
    let Kept { store } = to_hut;
    assert!(rt; !store.holds());
    let Kept { store } = back;
    assert!(rt; !store.holds());
}
