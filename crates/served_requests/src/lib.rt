// No code: what holds of the calls of the requests, in the words of include/bsp29.h. specs/ says it: of whole lines (Lines), of many points
// (Points), of a hull's tree size (TreeSizes) and body sizes (BodySizes), of walking order (SameCalls), of made-up maps (MadeUp), of the place
// of a refusal (Places) and of what these calls are refused with (Refusals). proofs/ proves it.
#![tactic(auto)]
