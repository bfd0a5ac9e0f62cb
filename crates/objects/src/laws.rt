//! The laws of the definitions. Each function does nothing: its contract is the law.

ghost use Rattle.objects.specs.Laws.{LimitersServe, ChannelsServe};

/// However tokens are asked for and come back, no more are held than the limiter has, nobody waits while one is free, and who
/// asked first is served first.
pub fn law_limiters<A>()
    ensures { LimitersServe A }
{}

/// What is sent to a channel is received once, in order, or is still in its buffer, which has no more than its places. Nobody
/// waits for what is there, and who asked first is served first.
pub fn law_channels<A, P>()
    ensures { ChannelsServe A P }
{}
