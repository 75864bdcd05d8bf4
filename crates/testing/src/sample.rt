//! The worked case that tests of several crates begin with.

/// A function, and two PTFs for it. The second one supersedes the reason for which the first is held.
pub const BASE: &[u8] = b"++FUNCTION(HBB7790).
++VER(Z038).
++PTF(UA10001).
++VER(Z038) FMID(HBB7790).
++PTF(UA10002).
++VER(Z038) FMID(HBB7790) PRE(UA10001) SUP(AA20002).
++HOLD(UA10001) ERROR FMID(HBB7790)
 REASON(AA20002) CLASS(PE) DATE(12045).
";

/// The exception report of a zone `TGT1` in which the function and the first PTF are applied.
pub const ONE_RESOLVER: &str = "EXCEPTION SYSMOD REPORT FOR ZONE TGT1
FMID     SYSMOD   REASON   RESOLVER STATUS RECEIVED CLASS
HBB7790  UA10001  AA20002  UA10002  GOOD   NO       PE
ROWS 1
";

/// The same report if a PTF UA10005 supersedes the second PTF.
pub const TWO_RESOLVERS: &str = "EXCEPTION SYSMOD REPORT FOR ZONE TGT1
FMID     SYSMOD   REASON   RESOLVER STATUS RECEIVED CLASS
HBB7790  UA10001  AA20002  UA10002  GOOD   NO       PE
HBB7790  UA10001  AA20002  UA10005  GOOD   NO       PE
ROWS 2
";

/// The same, if the second PTF is received.
pub const ONE_RECEIVED: &str = "EXCEPTION SYSMOD REPORT FOR ZONE TGT1
FMID     SYSMOD   REASON   RESOLVER STATUS RECEIVED CLASS
HBB7790  UA10001  AA20002  UA10002  GOOD   YES      PE
HBB7790  UA10001  AA20002  UA10005  GOOD   NO       PE
ROWS 2
";

/// The chain of the second PTF in that zone.
pub const SHORT_PLAN: &str = "{\"plan\":[{\"id\":\"UA10002\",\"system\":[],\"user\":[]}],\
\"status\":\"GOOD\",\"sysmod\":\"UA10002\",\"zone\":\"TGT1\"}";

/// The same in a zone in which the function alone is applied.
pub const LONG_PLAN: &str = "{\"plan\":[{\"id\":\"UA10001\",\"system\":[],\"user\":[]},\
{\"id\":\"UA10002\",\"system\":[],\"user\":[]}],\
\"status\":\"GOOD\",\"sysmod\":\"UA10002\",\"zone\":\"TGT1\"}";
