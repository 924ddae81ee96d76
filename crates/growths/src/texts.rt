//! What the calls of a trial are given.

/// The endpoint, as a file has it.
pub const ENDPOINTS: &[u8] = b"RRQ 1 GW ga gk-a 10.0.1.1:1720 e164=9123 tech=3#\n";

/// Two calls, of which the second is answered for another gatekeeper.
pub const CALLS: &[u8] = b"number,event,call,zone,digits,units,granted,route\n\
2,ARQ,1001,gk-a,9123,640,yes,ZONE the-gatekeeper-of-the-north-site 10.9.0.1:1719\n\
3,ANS,1002,gk-a,,64,yes,GW ga 10.0.1.1:1720\n\
4,BRQ,1001,,,320,,\n";
